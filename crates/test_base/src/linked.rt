//! Halves of the addresses of symbols: their values, the instructions that have them, and their words before and after
//! the program is linked.

use crate::parts::Part::*;
use crate::parts::{ADDI, BEQ, CALL_BY, LD, Part, SD, made, other_form};
use base_list::List;
use rv64_instr::decoded::{Base, Decoded, Input};
use rv64_instr::instr::Instr;
use rv64_instr::linked::{half_immediate, linked_address, linked_value};
use rv64_instr::op::ImmediateOp::*;
use rv64_instr::op::LoadOp::*;
use rv64_instr::op::StoreOp::*;
use rv64_instr::op::{Op, RegisterOp};
use rv64_instr::reg::physical;
use rv64_instr::symbol::{Half, LinkedAddress, Symbol, SymbolAddresses, copy_addresses};
use rv64_word::linked::linked_word;
use rv64_word::lowering::lower;
use rv64_word::machine_op::encode;
use std::alloc::Global;

/// A symbol: the global of a name, or a constant of the pool.
#[derive(Clone, Copy)]
enum Of {
    Name(&'static str),
    Pool(u32),
}

use Of::*;

fn symbol(alloc: Global, of: &Of) -> Option<Symbol> {
    match of {
        Name(text) => Some(Symbol::Global(List::from_slice(alloc, text.as_bytes()).ok()?)),
        Pool(number) => Some(Symbol::Constant(*number)),
    }
}

fn address(alloc: Global, of: &Of, addend: i32) -> Option<LinkedAddress> {
    Some(LinkedAddress {
        symbol: symbol(alloc, of)?,
        addend,
    })
}

/// Symbols with their addresses. The first of a symbol counts.
const SYMBOLS: &[(Of, u64)] = &[
    (Pool(7), 4096),
    (Name("gg"), 1),
    (Name("g"), 0x1234_5fff),
    (Name("g"), 2),
    (Pool(0), 8192),
];

fn addresses(alloc: Global, pairs: &[(Of, u64)]) -> Option<SymbolAddresses> {
    let mut symbols = SymbolAddresses::new(alloc);
    for (of, address) in pairs {
        symbols.push((symbol(alloc, of)?, *address)).ok()?;
    }
    Some(symbols)
}

/// A symbol, a number of bytes, and their address. A symbol without one has one by its name, and addresses wrap.
const ADDRESSES: &[(Of, i32, u64)] = &[
    (Name("g"), 0, 0x1234_5fff),
    (Name("g"), -0x1234_6000, u64::MAX),
    (Name("gg"), 4, 5),
    (Name("h"), 5, 0x1068_0005),
    (Name(""), -1, 0xfff_ffff),
    (Pool(7), i32::MAX, 0x8000_0fff),
    (Pool(0), 0, 8192),
    (Pool(1), i32::MIN, 0xffff_ffff_952e_0000),
];

/// Whether the copy of an address among copied symbols is this.
fn is_copied_at(
    alloc: Global,
    symbols: &SymbolAddresses,
    address: &LinkedAddress,
    wanted: u64,
) -> Option<bool> {
    let again = address.copy().ok()?;
    let copied = copy_addresses(alloc, symbols).ok()?;
    Some(linked_address(&copied, &again) == wanted)
}

/// Whether a symbol's address, and that of its copy among copied symbols, is this.
fn is_at(
    alloc: Global,
    symbols: &SymbolAddresses,
    of: &Of,
    addend: i32,
    wanted: u64,
) -> Option<bool> {
    let address = address(alloc, of, addend)?;
    let again = is_copied_at(alloc, symbols, &address, wanted)?;
    Some(again && linked_address(symbols, &address) == wanted)
}

/// The number of the first row whose symbol is elsewhere.
fn other_address_among(
    alloc: Global,
    symbols: &SymbolAddresses,
    rows: &[(Of, i32, u64)],
) -> Option<usize> {
    for (row, (of, addend, wanted)) in rows.iter().enumerate() {
        if is_at(alloc, symbols, of, *addend, *wanted) != Some(true) {
            return Some(row);
        }
    }
    None
}

/// The same among the symbols above.
fn other_address(alloc: Global, rows: &[(Of, i32, u64)]) -> Option<usize> {
    match addresses(alloc, SYMBOLS) {
        Some(symbols) => other_address_among(alloc, &symbols, rows),
        None => Some(rows.len()),
    }
}

/// An address, the immediate and the value of its upper half, and those of its lower half.
const HALVES: &[(u64, i64, u64, i64)] = &[
    (0, 0, 0, 0),
    (2047, 0, 0, 2047),
    (2048, 1, 4096, -2048),
    (4095, 1, 4096, -1),
    (6144, 2, 8192, -2048),
    (0x7fff_f7ff, 0x7ffff, 0x7fff_f000, 2047),
    (0x7fff_f800, 0x80000, 0xffff_ffff_8000_0000, -2048),
    (0xffff_ffff_7fff_f800, 0x80000, 0xffff_ffff_8000_0000, -2048),
    (0xffff_ffff_8000_0000, 0x80000, 0xffff_ffff_8000_0000, 0),
    (0x1_0000_1234, 1, 4096, 0x234),
    (u64::MAX, 0, 0, -1),
];

/// Whether the halves of an address are these.
fn are_halves(alloc: Global, row: &(u64, i64, u64, i64)) -> Option<bool> {
    let (at, upper, value, lower) = *row;
    let symbols = addresses(alloc, &[(Pool(3), at)])?;
    let address = LinkedAddress {
        symbol: Symbol::Constant(3),
        addend: 0,
    };
    Some(
        half_immediate(Half::Upper, at) == upper
            && half_immediate(Half::Lower, at) == lower
            && linked_value(&symbols, Half::Upper, &address) == value
            && linked_value(&symbols, Half::Lower, &address) == lower.cast_unsigned(),
    )
}

/// The number of the first row whose halves are others.
fn other_halves(alloc: Global, rows: &[(u64, i64, u64, i64)]) -> Option<usize> {
    for (n, row) in rows.iter().enumerate() {
        if are_halves(alloc, row) != Some(true) {
            return Some(n);
        }
    }
    None
}

#[test]
fn halves_of_addresses(rt: HostRuntime) {
    assert_eq!(rt; other_address(rt.alloc(), ADDRESSES), None);
    assert_eq!(rt; other_halves(rt.alloc(), HALVES), None);
}

/// An opcode, operands, and whether they have its form: a half stands in the place of an immediate of its width.
const FORMS: &[(Op, &[Part], bool)] = &[
    (Op::Lui, &[Def(10), Upper(i32::MIN)], true),
    (Op::Lui, &[Def(10), Lower(0)], false),
    (Op::Lui, &[Upper(0), Upper(0)], false),
    (ADDI, &[Def(10), Use(0), Lower(i32::MAX)], true),
    (ADDI, &[Def(10), Use(10), Upper(0)], false),
    (ADDI, &[Def(10), Upper(0), Lower(0)], false),
    (Op::Immediate(Xori), &[Def(10), Use(10), Lower(0)], false),
    (Op::Immediate(Addiw), &[Def(10), Use(10), Lower(0)], false),
    (LD, &[Def(10), Use(11), Lower(0), Takes(9)], true),
    (LD, &[Def(10), Use(11), Upper(0)], false),
    (LD, &[Def(10), Use(11), Lower(0), Imm(0)], false),
    (SD, &[Use(10), Use(11), Lower(0)], true),
    (SD, &[Use(10), Use(11), Upper(0)], false),
    (BEQ, &[Use(10), Use(11), Lower(0)], false),
    (Op::Copy, &[Def(10), Lower(0)], false),
    (Op::PseudoCall, &[Upper(0), Mask], false),
    (Op::PseudoRet, &[Lower(0)], false),
];

/// An opcode, its operands, its word in an object, and its words where `g` is at 0x12345fff and at 0x123467a3: those of
/// `llvm-mc` and `ld.lld` of LLVM 19. An instruction without a half has one word.
const WORDS: &[(Op, &[Part], u32, u32, u32)] = &[
    (
        Op::Lui,
        &[Def(10), Upper(0)],
        0x00000537,
        0x12346537,
        0x12346537,
    ),
    (
        ADDI,
        &[Def(10), Use(11), Lower(0)],
        0x00058513,
        0xfff58513,
        0x7a358513,
    ),
    (
        Op::Load(Lb),
        &[Def(12), Use(13), Lower(0)],
        0x00068603,
        0xfff68603,
        0x7a368603,
    ),
    (
        Op::Load(Lh),
        &[Def(12), Use(13), Lower(0)],
        0x00069603,
        0xfff69603,
        0x7a369603,
    ),
    (
        Op::Load(Lw),
        &[Def(12), Use(13), Lower(0)],
        0x0006a603,
        0xfff6a603,
        0x7a36a603,
    ),
    (
        LD,
        &[Def(12), Use(13), Lower(0)],
        0x0006b603,
        0xfff6b603,
        0x7a36b603,
    ),
    (
        Op::Load(Lbu),
        &[Def(12), Use(13), Lower(0)],
        0x0006c603,
        0xfff6c603,
        0x7a36c603,
    ),
    (
        Op::Load(Lhu),
        &[Def(12), Use(13), Lower(0)],
        0x0006d603,
        0xfff6d603,
        0x7a36d603,
    ),
    (
        Op::Load(Lwu),
        &[Def(12), Use(13), Lower(0)],
        0x0006e603,
        0xfff6e603,
        0x7a36e603,
    ),
    (
        Op::Store(Sb),
        &[Use(14), Use(15), Lower(0)],
        0x00e78023,
        0xfee78fa3,
        0x7ae781a3,
    ),
    (
        Op::Store(Sh),
        &[Use(14), Use(15), Lower(0)],
        0x00e79023,
        0xfee79fa3,
        0x7ae791a3,
    ),
    (
        Op::Store(Sw),
        &[Use(14), Use(15), Lower(0)],
        0x00e7a023,
        0xfee7afa3,
        0x7ae7a1a3,
    ),
    (
        SD,
        &[Use(14), Use(15), Lower(0)],
        0x00e7b023,
        0xfee7bfa3,
        0x7ae7b1a3,
    ),
    (
        SD,
        &[Use(14), Use(15), Imm(8)],
        0x00e7b423,
        0x00e7b423,
        0x00e7b423,
    ),
    (
        CALL_BY,
        &[Use(11), Mask],
        0x000580e7,
        0x000580e7,
        0x000580e7,
    ),
];

/// The word of an instruction where `g` is at an address.
fn word_at(alloc: Global, i: &Instr, word: u32, at: u64) -> Option<u32> {
    let symbols = addresses(alloc, &[(Name("g"), at)])?;
    Some(linked_word(i, word, &symbols))
}

/// The words of an instruction.
fn words_of(alloc: Global, i: &Instr) -> Option<(u32, u32, u32)> {
    let word = encode(&lower(i, 0, 0)?);
    let first = word_at(alloc, i, word, 0x1234_5fff)?;
    let second = word_at(alloc, i, word, 0x1234_67a3)?;
    Some((word, first, second))
}

/// The words of a row's instruction.
fn words(alloc: Global, op: Op, parts: &[Part]) -> Option<(u32, u32, u32)> {
    let i = made(alloc, op, parts)?;
    words_of(alloc, &i)
}

/// The number of the first row with other words.
fn other_words(alloc: Global, rows: &[(Op, &[Part], u32, u32, u32)]) -> Option<usize> {
    for (row, (op, parts, word, first, second)) in rows.iter().enumerate() {
        if words(alloc, *op, parts) != Some((*word, *first, *second)) {
            return Some(row);
        }
    }
    None
}

#[test]
fn words_with_halves(rt: HostRuntime) {
    assert_eq!(rt; other_form(rt.alloc(), FORMS), None);
    assert_eq!(rt; other_words(rt.alloc(), WORDS), None);
}

/// Whether an instruction does this, with this half of a symbol plus 5.
fn does_with_half(i: &Instr, does: &Decoded, half: Half) -> bool {
    let Some(address) = i.linked_address() else {
        return false;
    };
    i.decoded() == *does && i.linked_half() == Some(half) && address.addend == 5
}

/// Whether a row's instruction does this, with this half of `g` plus 5.
fn has_half(alloc: Global, op: Op, parts: &[Part], does: &Decoded, half: Half) -> Option<bool> {
    let i = made(alloc, op, parts)?;
    Some(does_with_half(&i, does, half))
}

/// Whether what computes has a half as its input.
fn compute_with_halves(alloc: Global) -> Option<bool> {
    let (zero, a, b) = (physical(0)?, physical(10)?, physical(11)?);
    let upper = Decoded::Sets(a, RegisterOp::Add, zero, Input::PartOf(Half::Upper));
    let lower = Decoded::Sets(a, RegisterOp::Add, b, Input::PartOf(Half::Lower));
    let lui = has_half(alloc, Op::Lui, &[Def(10), Upper(5)], &upper, Half::Upper)?;
    let addi = has_half(
        alloc,
        ADDI,
        &[Def(10), Use(11), Lower(5)],
        &lower,
        Half::Lower,
    )?;
    Some(lui && addi)
}

/// Whether an access has a half beside its base.
fn access_beside_halves(alloc: Global) -> Option<bool> {
    let (a, b) = (physical(10)?, physical(11)?);
    let load = Decoded::Loads(a, Ld, Base::BesidePart(b), 0);
    let store = Decoded::Stores(Sd, a, Base::BesidePart(b), 0);
    let ld = has_half(alloc, LD, &[Def(10), Use(11), Lower(5)], &load, Half::Lower)?;
    let sd = has_half(
        alloc,
        SD,
        &[Use(10), Use(11), Lower(5)],
        &store,
        Half::Lower,
    )?;
    Some(ld && sd)
}

#[test]
fn what_halves_do(rt: HostRuntime) {
    assert!(rt; compute_with_halves(rt.alloc()) == Some(true));
    assert!(rt; access_beside_halves(rt.alloc()) == Some(true));
}
