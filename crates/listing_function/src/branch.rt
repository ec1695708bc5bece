//! Long conditional branches: the inverted branch that skips, and the jump after it.

ghost use Rattle.std.specs.Prelude.{◌≡◌, [], ◌∷◌, ◌++◌, Some, None, IfOk, OnOk};
ghost use Rattle.rv64_instr.specs.Inverse.{inverse};
ghost use Rattle.mir_func.specs.declared.item.ItemKind.TheVariants.{Code};
ghost use Rattle.listing_text.specs.declared.output.Line.TheVariants.{Skip};
ghost use Rattle.emit_code.specs.LongBranch.{jump_to};
ghost use Rattle.emit_code.specs.Rule.{added_before};
ghost use Rattle.listing_meaning.specs.Listing.{implicits, line_at};
ghost use Rattle.listing_function.specs.steps.Operands.{compared, branch_by};

use base_ids::function_ids::{BlockId, DebugNumber};
use listing_text::output::{Implicit, Implicits, ItemLine, Line, SkipLine};
use mir_func::item::{Item, ItemKind};
use mir_func::position::Origin;
use rv64_instr::instr::Instr;
use rv64_instr::inverse::inverse;
use rv64_instr::op::{BranchOp, Op};
use rv64_instr::operand::{Operand, Operands};
use rv64_instr::reg::Reg;
use std::alloc::{AllocError, Global};

/// What a conditional branch compares, and its target.
#[derive(Drop)]
pub(crate) struct Branch {
    /// Its operation.
    pub op: BranchOp,
    /// The first register that it compares.
    pub first: Reg,
    /// The second one.
    pub second: Reg,
    /// Its target block.
    pub target: BlockId,
}

/// The instruction as a conditional branch, if it is one.
pub(crate) fn branch_of(i: &Instr) -> Option<Branch>
    ensures { result ≡ branch_by i.now.op i.now.operands }
{
    match i.op {
        Op::Branch(op) => compared(op, i.operands.as_slice()),
        Op::Registers(_)
        | Op::Immediate(_)
        | Op::Lui
        | Op::Load(_)
        | Op::Store(_)
        | Op::Copy
        | Op::PseudoBr
        | Op::PseudoCall
        | Op::PseudoRet
        | Op::PseudoCallIndirect
        | Op::PseudoTail
        | Op::PseudoTailIndirect
        | Op::NoReturnCall
        | Op::NoReturnCallIndirect => None,
    }
}

fn compared(op: BranchOp, operands: &[Operand]) -> Option<Branch>
    ensures { result ≡ compared op operands.now }
{
    match operands {
        [
            Operand::Use(first),
            Operand::Use(second),
            Operand::Block(target),
            ..
        ] => Some(Branch {
            op,
            first: *first,
            second: *second,
            target: *target,
        }),
        _ => None,
    }
}

/// The line of the inverted branch, which skips the next word.
pub(crate) fn skip(
    alloc: Global,
    address: u32,
    origin: &Origin,
    branch: &Branch,
    operands: &[Operand],
) -> Result<Line, AllocError>
    ensures { IfOk result (λ line. line ≡ Skip (record {
      address = address;
      origin = added_before origin.now;
      op = inverse branch.now.op;
      first = branch.now.first;
      second = branch.now.second;
      implicit = implicits operands.now;
    })) }
{
    Ok(Line::Skip(SkipLine {
        address,
        origin: added_before(origin),
        op: inverse(branch.op),
        first: branch.first,
        second: branch.second,
        implicit: implicits(alloc, operands)?,
    }))
}

/// The line of the jump: an item with the number, the origin and the debug location of the branch.
pub(crate) fn jump(
    alloc: Global,
    address: u32,
    item: &Item,
    target: BlockId,
    number: Option<DebugNumber>,
) -> Result<Line, AllocError>
    ensures { IfOk result (λ line. line ≡ line_at (Some address) item.now (Code (jump_to target) number)) }
{
    let mut operands = Operands::new(alloc);
    operands.push(Operand::Block(target))?;
    let jump = Instr {
        op: Op::PseudoBr,
        operands,
        volatile: false,
    };
    Ok(Line::Item(ItemLine {
        address: Some(address),
        item: Item {
            kind: ItemKind::Code(jump, number),
            origin: item.origin,
            loc: item.loc,
        },
    }))
}

/// The implicit operands among operands.
fn implicits(alloc: Global, operands: &[Operand]) -> Result<Implicits, AllocError>
    ensures { IfOk result (λ made. made ≡ implicits operands.now) }
{
    let mut made = Implicits::new(alloc);
    for operand in operands {
        push_implicit(&mut made, operand)?;
    }
    Ok(made)
}

fn push_implicit(made: &mut Implicits, operand: &Operand) -> Result<(), AllocError>
    ensures { OnOk result (made.new ≡ made.old ++ implicits (operand.now ∷ [])) }
{
    match operand {
        Operand::ImplicitDef(r) => made.push(Implicit::Def(*r)),
        Operand::ImplicitUse(r) => made.push(Implicit::Use(*r)),
        Operand::Def(_)
        | Operand::Use(_)
        | Operand::Imm(_)
        | Operand::Slot(_)
        | Operand::Object(_)
        | Operand::Part(_, _)
        | Operand::Outgoing(_)
        | Operand::GlobalRegisters
        | Operand::Block(_)
        | Operand::Symbol(_)
        | Operand::Mask => Ok(()),
    }
}

/// The origin of a word that was added before a position.
fn added_before(origin: &Origin) -> Origin
    ensures { result ≡ added_before origin.now }
{
    match *origin {
        Origin::Kept(position) | Origin::Before(position) => Origin::Before(position),
    }
}
