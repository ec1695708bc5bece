//! The kinds of relocations of instructions' words, as clang and GNU as write them.

use base_list::List;
use elf_relocation::kind::RelocationKind;
use rv64_instr::instr::Instr;
use rv64_instr::op::{ImmediateOp, LoadOp, Op, StoreOp};
use rv64_instr::operand::{Operand, Operands};
use rv64_instr::reg::physical;
use rv64_instr::symbol::{Half, LinkedAddress, Symbol};
use rv64_relocation::code::relocation_kind;
use std::alloc::Global;
use std::test::Fail;

/// An operand: a register that is set or read, a number, or a half of an address.
enum Part {
    Def(u32),
    Use(u32),
    Number(i64),
    Of(Half),
}

use Part::*;

/// An opcode, its operands, and the kind of its word's relocation.
const ROWS: &[(Op, &[Part], Option<RelocationKind>)] = &[
    (
        Op::Lui,
        &[Def(10), Of(Half::Upper)],
        Some(RelocationKind::Upper),
    ),
    (
        Op::Immediate(ImmediateOp::Addi),
        &[Def(10), Use(10), Of(Half::Lower)],
        Some(RelocationKind::Lower),
    ),
    (
        Op::Load(LoadOp::Lbu),
        &[Def(10), Use(11), Of(Half::Lower)],
        Some(RelocationKind::Lower),
    ),
    (
        Op::Store(StoreOp::Sw),
        &[Use(10), Use(11), Of(Half::Lower)],
        Some(RelocationKind::StoreLower),
    ),
    (Op::Store(StoreOp::Sd), &[Use(10), Use(11), Number(8)], None),
    (Op::Lui, &[Def(10), Number(8)], None),
];

fn operand(alloc: Global, part: &Part) -> Option<Operand> {
    match part {
        Def(n) => Some(Operand::Def(physical(*n)?)),
        Use(n) => Some(Operand::Use(physical(*n)?)),
        Number(i) => Some(Operand::Imm(*i)),
        Of(half) => Some(Operand::Part(
            *half,
            LinkedAddress {
                symbol: Symbol::Global(List::from_slice(alloc, b"g").ok()?),
                addend: 0,
            },
        )),
    }
}

fn made(alloc: Global, op: Op, parts: &[Part]) -> Option<Instr> {
    let mut operands = Operands::new(alloc);
    for part in parts {
        operands.push(operand(alloc, part)?).ok()?;
    }
    Instr::new(op, operands)
}

/// Whether the word of an instruction is relocated so.
fn is_relocated(
    alloc: Global,
    op: Op,
    parts: &[Part],
    wanted: Option<RelocationKind>,
) -> Option<bool> {
    let i = made(alloc, op, parts)?;
    Some(relocation_kind(&i) == wanted)
}

#[test]
fn words_have_the_kinds_of_their_halves(rt: HostRuntime) -> Result<(), Fail> {
    let alloc = rt.alloc();
    for (op, parts, wanted) in ROWS {
        assert!(rt; is_relocated(alloc, *op, parts, *wanted) == Some(true));
    }
    Ok(())
}
