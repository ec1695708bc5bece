//! Instructions by their opcodes and their operands as data.

use base_ids::function_ids::{BlockId, ObjectId, SlotId};
use base_list::List;
use rv64_instr::instr::Instr;
use rv64_instr::op::BranchOp::Beq;
use rv64_instr::op::ImmediateOp::Addi;
use rv64_instr::op::LoadOp::Ld;
use rv64_instr::op::Op;
use rv64_instr::op::StoreOp::Sd;
use rv64_instr::operand::{Operand, Operands};
use rv64_instr::reg::physical;
use rv64_instr::symbol::{Half, LinkedAddress, Symbol};
use std::alloc::Global;

pub(crate) const ADDI: Op = Op::Immediate(Addi);

pub(crate) const LD: Op = Op::Load(Ld);

pub(crate) const SD: Op = Op::Store(Sd);

pub(crate) const BEQ: Op = Op::Branch(Beq);

pub(crate) const CALL_BY: Op = Op::PseudoCallIndirect;

pub(crate) const TAIL_BY: Op = Op::PseudoTailIndirect;

pub(crate) const GONE_BY: Op = Op::NoReturnCallIndirect;

/// An operand by its number, the slot that a call passes among them; a half of the address of the global `g`, plus a
/// number of bytes; or a call's, whose callee is `g`.
pub(crate) enum Part {
    Def(u32),
    Use(u32),
    Takes(u32),
    Sets(u32),
    Imm(i64),
    Upper(i32),
    Lower(i32),
    Slot(u32),
    Object(u32),
    Block(u32),
    Passes(u32),
    Called,
    Mask,
}

use Part::*;

/// A half of the address of `g` plus a number of bytes.
fn part_of_g(alloc: Global, half: Half, addend: i32) -> Option<Operand> {
    let symbol = Symbol::Global(List::from_slice(alloc, b"g").ok()?);
    Some(Operand::Part(half, LinkedAddress { symbol, addend }))
}

fn operand(alloc: Global, part: &Part) -> Option<Operand> {
    match part {
        Def(n) => Some(Operand::Def(physical(*n)?)),
        Use(n) => Some(Operand::Use(physical(*n)?)),
        Takes(n) => Some(Operand::ImplicitUse(physical(*n)?)),
        Sets(n) => Some(Operand::ImplicitDef(physical(*n)?)),
        Imm(i) => Some(Operand::Imm(*i)),
        Upper(addend) => part_of_g(alloc, Half::Upper, *addend),
        Lower(addend) => part_of_g(alloc, Half::Lower, *addend),
        Slot(n) => Some(Operand::Slot(SlotId(*n))),
        Object(n) => Some(Operand::Object(ObjectId(*n))),
        Block(n) => Some(Operand::Block(BlockId(*n))),
        Passes(n) => Some(Operand::Outgoing(SlotId(*n))),
        Called => Some(Operand::Symbol(List::from_slice(alloc, b"g").ok()?)),
        Mask => Some(Operand::Mask),
    }
}

fn operands(alloc: Global, parts: &[Part]) -> Option<Operands> {
    let mut operands = Operands::new(alloc);
    for part in parts {
        operands.push(operand(alloc, part)?).ok()?;
    }
    Some(operands)
}

/// The instruction of an opcode and operands, where they have its form.
pub(crate) fn made(alloc: Global, op: Op, parts: &[Part]) -> Option<Instr> {
    Instr::new(op, operands(alloc, parts)?)
}

/// The number of the first row whose operands fit where they shouldn't, or don't where they should.
pub(crate) fn other_form(alloc: Global, rows: &[(Op, &[Part], bool)]) -> Option<usize> {
    for (row, (op, parts, fits)) in rows.iter().enumerate() {
        if made(alloc, *op, parts).is_some() != *fits {
            return Some(row);
        }
    }
    None
}
