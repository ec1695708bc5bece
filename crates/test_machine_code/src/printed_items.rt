//! A branch that reads a virtual register, which the parser doesn't accept.

use base_ids::function_ids::BlockId;
use mir_func::item::{Item, ItemKind};
use mir_func::location::Loc;
use mir_func::position::{Origin, Pos};
use mir_printer::item::push_item;
use mir_printer::text::Text;
use rv64_instr::instr::Instr;
use rv64_instr::op::{BranchOp, Op};
use rv64_instr::operand::{Operand, Operands};
use rv64_instr::reg::Reg;
use std::alloc::{AllocError, Global};
use std::test::Fail;

/// The operands `$x10, %0, %bb.2, implicit $x11`.
fn operands(alloc: Global) -> Option<Operands> {
    let (first, second, third) = (Reg::new(10)?, Reg::new(32)?, Reg::new(11)?);
    let mut operands = Operands::new(alloc);
    operands.push(Operand::Use(first)).ok()?;
    operands.push(Operand::Use(second)).ok()?;
    operands.push(Operand::Block(BlockId(2))).ok()?;
    operands.push(Operand::ImplicitUse(third)).ok()?;
    Some(operands)
}

/// A branch with these.
fn branch(alloc: Global) -> Option<Instr> {
    Instr::new(Op::Branch(BranchOp::Beq), operands(alloc)?)
}

/// The text of an instruction.
fn printed(alloc: Global, instr: Instr) -> Result<Text, AllocError> {
    let item = Item {
        kind: ItemKind::Code(instr, None),
        origin: Origin::Kept(Pos {
            block: BlockId(0),
            item: 0,
        }),
        loc: Loc::Absent,
    };
    let mut text = Text::new(alloc);
    push_item(&mut text, &item)?;
    Ok(text)
}

#[test]
fn virtual_registers_are_printed(rt: HostRuntime) -> Result<(), Fail> {
    let branch = branch(rt.alloc()).ok_or("a branch")?;
    let text = printed(rt.alloc(), branch)?;
    assert_eq!(rt;
        text.as_slice(),
        b"BEQ $x10, %0, %bb.2, implicit $x11".as_slice()
    );
    Ok(())
}
