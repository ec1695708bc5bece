//! Branches and jumps with other targets.

ghost use Rattle.std.specs.Prelude.{◌≡◌, IfOk};
ghost use Rattle.std.specs.List.{slice_set};
ghost use Rattle.rv64_instr.specs.declared.operand.Operand.TheVariants.{Block as OfBlock};
ghost use Rattle.rv64_instr.specs.Inverse.{inverse_op};
ghost use Rattle.fold_rule.specs.Turned.{to_block, sent, turned, made_jump};

use base_ids::function_ids::BlockId;
use mir_func::item::{Item, ItemKind};
use mir_func::location::Loc;
use mir_func::position::Origin;
use rv64_instr::instr::Instr;
use rv64_instr::inverse::inverse;
use rv64_instr::op::Op;
use rv64_instr::operand::{Operand, Operands};
use std::alloc::{AllocError, Global};

/// Sets the target of a branch or a jump.
pub fn send(x: &mut Item, block: BlockId)
    ensures { x.new ≡ sent block x.old }
{
    if let ItemKind::Code(i, _) = &mut x.kind {
        aim(i, block);
    }
}

/// Inverts a conditional branch and sets its target: it goes to the block exactly when it wasn't taken before.
pub fn turn(x: &mut Item, block: BlockId)
    ensures { x.new ≡ turned block x.old }
{
    if let ItemKind::Code(i, _) = &mut x.kind {
        aim(i, block);
        invert(i);
    }
}

/// A new jump to a block, without a number.
pub fn made_jump(
    alloc: Global,
    block: BlockId,
    origin: Origin,
    loc: Loc,
) -> Result<Item, AllocError>
    ensures { IfOk result (λ j. j ≡ made_jump block origin loc) }
{
    let mut operands = Operands::new(alloc);
    operands.push(Operand::Block(block))?;
    let jump = Instr {
        op: Op::PseudoBr,
        operands,
        volatile: false,
    };
    Ok(Item {
        kind: ItemKind::Code(jump, None),
        origin,
        loc,
    })
}

/// Sets the target block of a branch or a jump.
fn aim(i: &mut Instr, block: BlockId)
    ensures { i.new ≡ to_block block i.old }
{
    match i.op {
        Op::Branch(_) => set_block(&mut i.operands, 2, block),
        Op::PseudoBr => set_block(&mut i.operands, 0, block),
        Op::Registers(_)
        | Op::Immediate(_)
        | Op::Lui
        | Op::Load(_)
        | Op::Store(_)
        | Op::Copy
        | Op::PseudoCall
        | Op::PseudoRet
        | Op::PseudoCallIndirect
        | Op::PseudoTail
        | Op::PseudoTailIndirect
        | Op::NoReturnCall
        | Op::NoReturnCallIndirect => {}
    }
}

/// Sets an operand to a block, if there is such an operand.
fn set_block(operands: &mut Operands, index: usize, block: BlockId)
    ensures { operands.new ≡ slice_set operands.old index (OfBlock block) }
{
    let list = operands.items.as_mut_slice();
    if index < list.len() {
        list[index] = Operand::Block(block);
    }
}

/// Inverts a conditional branch.
fn invert(i: &mut Instr)
    ensures { i.new ≡ record i.old { op = inverse_op i.old.op } }
{
    i.op = inverse_op(i.op);
}

/// The opcode with its condition inverted; opcodes other than conditional branches are unchanged.
fn inverse_op(op: Op) -> Op
    ensures { result ≡ inverse_op op }
{
    match op {
        Op::Branch(branch) => Op::Branch(inverse(branch)),
        Op::PseudoBr
        | Op::PseudoCall
        | Op::PseudoRet
        | Op::PseudoCallIndirect
        | Op::PseudoTail
        | Op::PseudoTailIndirect
        | Op::NoReturnCall
        | Op::NoReturnCallIndirect
        | Op::Copy
        | Op::Lui
        | Op::Load(_)
        | Op::Store(_)
        | Op::Immediate(_)
        | Op::Registers(_) => op,
    }
}
