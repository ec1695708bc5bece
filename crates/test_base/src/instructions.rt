//! Arithmetic, names, effects and encodings of instructions, compared with values worked out by hand and with an
//! assembler's.

use crate::parts::Part::*;
use crate::parts::{ADDI, BEQ, CALL_BY, GONE_BY, LD, Part, SD, TAIL_BY, made, other_form};
use base_ids::function_ids::ObjectId;
use rv64_instr::arithmetic::{compute, extend, is_taken};
use rv64_instr::instr::Instr;
use rv64_instr::op::BranchOp::*;
use rv64_instr::op::ImmediateOp::*;
use rv64_instr::op::LoadOp::*;
use rv64_instr::op::RegisterOp::*;
use rv64_instr::op::StoreOp::*;
use rv64_instr::op::{Op, RegisterOp};
use rv64_instr::place::Place;
use rv64_instr::reg::physical;
use rv64_word::lowering::{lower, object_named};
use rv64_word::machine_op::encode;
use std::alloc::Global;

/// An operation on registers, their contents, and what it gives.
const RESULTS: &[(RegisterOp, u64, u64, u64)] = &[
    (Add, 0xffff_ffff_ffff_ffff, 2, 1),
    (Sub, 0, 1, 0xffff_ffff_ffff_ffff),
    (Sll, 1, 65, 2),
    (Srl, 0x8000_0000_0000_0000, 63, 1),
    (Sra, 0x8000_0000_0000_0000, 63, 0xffff_ffff_ffff_ffff),
    (Slt, 0xffff_ffff_ffff_ffff, 0, 1),
    (Sltu, 0xffff_ffff_ffff_ffff, 0, 0),
    (Xor, 6, 3, 5),
    (Or, 6, 3, 7),
    (And, 6, 3, 2),
    (Addw, 0x7fff_ffff, 1, 0xffff_ffff_8000_0000),
    (Subw, 0, 1, 0xffff_ffff_ffff_ffff),
    (Sllw, 1, 63, 0xffff_ffff_8000_0000),
    (Srlw, 0xffff_ffff_8000_0000, 4, 0x0800_0000),
    (Sraw, 0x8000_0000, 31, 0xffff_ffff_ffff_ffff),
];

/// Mnemonics, and the opcodes that have them.
const NAMES: &[(&[u8], Option<Op>)] = &[
    (b"SRAIW", Some(Op::Immediate(Sraiw))),
    (b"AUIPC", None),
    (b"PseudoTAILIndirect", Some(TAIL_BY)),
    (b"noreturn PseudoCALL", Some(Op::NoReturnCall)),
    (b"noreturn", None),
];

/// The number of the first row whose operation gives something else.
fn other_result(rows: &[(RegisterOp, u64, u64, u64)]) -> Option<usize> {
    for (row, (op, a, b, wanted)) in rows.iter().enumerate() {
        if compute(*op, *a, *b) != *wanted {
            return Some(row);
        }
    }
    None
}

/// The number of the first row whose mnemonic is another opcode's.
fn other_name(rows: &[(&[u8], Option<Op>)]) -> Option<usize> {
    for (row, (name, wanted)) in rows.iter().enumerate() {
        if Op::from_mnemonic(name) != *wanted {
            return Some(row);
        }
    }
    None
}

#[test]
fn arithmetic_of_the_standard(rt: HostRuntime) {
    assert_eq!(rt; other_result(RESULTS), None);
    assert!(rt; is_taken(Blt, u64::MAX, 0) && is_taken(Bgeu, u64::MAX, 0));
    assert!(rt; extend(Lb, 0x80) == 0xffff_ffff_ffff_ff80 && extend(Lhu, 0x8000) == 0x8000);
    assert_eq!(rt; other_name(NAMES), None);
}

fn object_in(parts: &[Part]) -> Option<ObjectId> {
    for part in parts {
        if let Object(n) = part {
            return Some(ObjectId(*n));
        }
    }
    None
}

const ADD: Op = Op::Registers(Add);

const SRAI: Op = Op::Immediate(Srai);

const LW: Op = Op::Load(Lw);

const SB: Op = Op::Store(Sb);

const BGEU: Op = Op::Branch(Bgeu);

const LBU: Op = Op::Load(Lbu);

const SH: Op = Op::Store(Sh);

/// An opcode, its operands, the target's offset, the stack object's offset, and the word that `llvm-mc` of LLVM 14
/// writes for the instruction, or 0 where an offset is out of range, and for what goes to a function of a name, which
/// has no one word.
const ROWS: &[(Op, &[Part], i64, u32, u32)] = &[
    (ADD, &[Def(5), Use(6), Use(7)], 0, 0, 0x007302b3),
    (ADDI, &[Def(11), Use(12), Imm(-2048)], 0, 0, 0x80060593),
    (ADDI, &[Def(11), Object(3), Imm(-8)], 0, 2055, 0x7ff10593),
    (ADDI, &[Def(11), Object(3), Imm(-8)], 0, 8, 0x00010593),
    (ADDI, &[Def(11), Object(3), Imm(0)], 0, 2048, 0),
    (SRAI, &[Def(5), Use(6), Imm(63)], 0, 0, 0x43f35293),
    (Op::Lui, &[Def(10), Imm(1_048_575)], 0, 0, 0xfffff537),
    (LW, &[Def(5), Use(6), Imm(-4)], 0, 0, 0xffc32283),
    (LW, &[Def(5), Object(2), Imm(-4)], 0, 0, 0xffc12283),
    (LD, &[Def(10), Slot(16), Imm(0)], 0, 0, 0x01013503),
    (LD, &[Def(10), Slot(2048), Imm(0)], 0, 0, 0),
    (SB, &[Use(7), Use(8), Imm(2047)], 0, 0, 0x7e740fa3),
    (SB, &[Use(7), Object(2), Imm(3)], 0, 2044, 0x7e710fa3),
    (SB, &[Use(7), Object(2), Imm(4)], 0, 2044, 0),
    (SD, &[Use(11), Slot(24), Imm(0)], 0, 0, 0x00b13c23),
    (BEQ, &[Use(5), Use(6), Block(1)], -8, 0, 0xfe628ce3),
    (BGEU, &[Use(10), Use(11), Block(1)], 4094, 0, 0x7eb57fe3),
    (BEQ, &[Use(5), Use(6), Block(1)], 4096, 0, 0),
    (Op::Copy, &[Def(10), Use(11)], 0, 0, 0x00058513),
    (Op::PseudoBr, &[Block(1)], 2048, 0, 0x0010006f),
    (Op::PseudoBr, &[Block(1)], 1, 0, 0),
    (Op::PseudoRet, &[], 0, 0, 0x00008067),
    (Op::PseudoRet, &[], 3, 3, 0x00008067),
    (ADDI, &[Def(11), Object(3), Imm(8)], 0, 0, 0x00810593),
    (ADDI, &[Def(11), Use(2), Imm(8)], 0, 0, 0x00810593),
    (LBU, &[Def(11), Object(4), Imm(8)], 0, 0, 0x00814583),
    (LD, &[Def(11), Slot(5), Imm(0)], 0, 0, 0x00513583),
    (SH, &[Use(11), Object(6), Imm(8)], 0, 0, 0x00b11423),
    (BEQ, &[Use(11), Use(0), Block(7)], 0, 0, 0x00058063),
    (Op::PseudoCall, &[Called, Mask], 0, 0, 0),
    (CALL_BY, &[Use(11), Mask], 0, 0, 0x000580e7),
    (Op::PseudoTail, &[Called], 0, 0, 0),
    (TAIL_BY, &[Takes(6), Takes(10)], 0, 0, 0x00030067),
    (TAIL_BY, &[Takes(31)], 3, 3, 0x000f8067),
    (Op::NoReturnCall, &[Called, Mask], 0, 0, 0),
    (GONE_BY, &[Takes(11), Mask], 0, 0, 0x000580e7),
];

/// The word of an instruction, or 0, and the stack object that it names.
fn lowered(
    alloc: Global,
    op: Op,
    parts: &[Part],
    offset: i64,
    object: u32,
) -> Option<(u32, Option<ObjectId>)> {
    let instr = made(alloc, op, parts)?;
    let word = match lower(&instr, offset, object) {
        Some(m) => encode(&m),
        None => 0,
    };
    Some((word, object_named(&instr)))
}

/// The first word of a row that isn't that of its instruction, or whose instruction names another object.
fn other_word(alloc: Global, rows: &[(Op, &[Part], i64, u32, u32)]) -> Option<u32> {
    for (op, parts, offset, object, word) in rows {
        if lowered(alloc, *op, parts, *offset, *object) != Some((*word, object_in(parts))) {
            return Some(*word);
        }
    }
    None
}

#[test]
fn words_of_instructions(rt: HostRuntime) {
    assert_eq!(rt; other_word(rt.alloc(), ROWS), None);
}

/// An opcode, operands, and whether they have its form. A call that returns has its callee in an explicit operand, and
/// what leaves for one in an implicit operand. The callee of a call in tail position is in a register that the epilogue
/// leaves alone, and so is what it passes. A call that doesn't return passes registers alone, and x2 isn't its callee.
const FORMS: &[(Op, &[Part], bool)] = &[
    (CALL_BY, &[Use(8), Mask, Takes(9)], true),
    (CALL_BY, &[Takes(8), Mask], false),
    (CALL_BY, &[Use(1), Mask], true),
    (CALL_BY, &[Use(0), Mask, Takes(2)], true),
    (CALL_BY, &[Use(8)], false),
    (CALL_BY, &[Use(8), Mask, Use(9)], false),
    (CALL_BY, &[Called, Mask], false),
    (Op::PseudoTail, &[Called, Takes(2), Takes(17)], true),
    (Op::PseudoTail, &[Called, Takes(6)], false),
    (Op::PseudoTail, &[Called, Mask], false),
    (TAIL_BY, &[Takes(6), Takes(2)], true),
    (TAIL_BY, &[Takes(10), Takes(6)], true),
    (TAIL_BY, &[Takes(10), Takes(5)], false),
    (TAIL_BY, &[Takes(8), Takes(2)], false),
    (TAIL_BY, &[Takes(1)], false),
    (TAIL_BY, &[Use(6)], false),
    (Op::NoReturnCall, &[Called, Mask, Takes(10)], true),
    (Op::NoReturnCall, &[Called, Mask, Sets(1), Takes(8)], true),
    (Op::NoReturnCall, &[Called, Mask, Sets(8)], false),
    (Op::NoReturnCall, &[Called, Takes(10)], false),
    (GONE_BY, &[Takes(8), Mask, Takes(9)], true),
    (GONE_BY, &[Takes(10), Takes(11)], false),
    (GONE_BY, &[Takes(2), Mask], false),
    (GONE_BY, &[Use(8), Mask], false),
];

/// A call with an argument in x10.
const CALL: &[Part] = &[Called, Mask, Takes(10)];

/// Whether an instruction is that call.
fn is_call(call: &Instr) -> bool {
    let (Some(x1), Some(x8), Some(x10)) = (physical(1), physical(8), physical(10)) else {
        return false;
    };
    call.effect().call
        && call.uses(Place::Register(x10))
        && call.defines(Place::Register(x1))
        && !call.defines(Place::Register(x8))
}

/// Whether a copy of an instruction is that call.
fn is_copied_as_call(i: &Instr) -> bool {
    match i.copy() {
        Ok(copied) => is_call(&copied),
        Err(_) => false,
    }
}

/// How many operands a copy of an instruction's operands has.
fn copied_operands(i: &Instr) -> usize {
    match i.operands.copy() {
        Ok(copied) => copied.as_slice().len(),
        Err(_) => 0,
    }
}

/// How many operands a copy of the call has, where both are that call.
fn operands_of_call(alloc: Global) -> Option<usize> {
    let call = made(alloc, Op::PseudoCall, CALL)?;
    if is_call(&call) && is_copied_as_call(&call) {
        Some(copied_operands(&call))
    } else {
        None
    }
}

#[test]
fn forms_of_calls(rt: HostRuntime) {
    assert_eq!(rt; other_form(rt.alloc(), FORMS), None);
    assert_eq!(rt; operands_of_call(rt.alloc()), Some(3));
}
