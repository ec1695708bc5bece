//! What goes to a callee by its name or by a register, and what it reads and sets.

use crate::parts::Part::*;
use crate::parts::{ADDI, CALL_BY, GONE_BY, LD, Part, SD, TAIL_BY, made};
use base_ids::function_ids::SlotId;
use rv64_instr::decoded::{Callee, Decoded, Way};
use rv64_instr::op::Op;
use rv64_instr::place::Place;
use rv64_instr::reg::physical;
use std::alloc::Global;

/// An opcode, its operands, and the register that it reads or else sets, whether it reads it, whether it sets it, and
/// whether it has two words for a function of a name. A callee in a register is read.
const USES: &[(Op, &[Part], u32, bool, bool, bool)] = &[
    (Op::Lui, &[Def(10), Upper(0)], 10, false, true, false),
    (ADDI, &[Def(10), Use(11), Lower(0)], 11, true, false, false),
    (ADDI, &[Def(10), Use(11), Lower(0)], 10, false, true, false),
    (LD, &[Def(10), Use(11), Lower(0)], 11, true, false, false),
    (SD, &[Use(10), Use(11), Lower(0)], 10, true, false, false),
    (SD, &[Use(10), Use(11), Lower(0)], 11, true, false, false),
    (CALL_BY, &[Use(8), Mask], 8, true, false, false),
    (CALL_BY, &[Use(11), Mask], 11, true, true, false),
    (CALL_BY, &[Use(11), Mask, Takes(8)], 8, true, false, false),
    (Op::PseudoCall, &[Called, Mask], 10, false, true, true),
    (Op::PseudoTail, &[Called, Takes(10)], 10, true, false, true),
    (TAIL_BY, &[Takes(6), Takes(10)], 6, true, false, false),
    (Op::NoReturnCall, &[Called, Mask], 10, false, false, true),
    (GONE_BY, &[Takes(11), Mask], 11, true, false, false),
    (CALL_BY, &[Use(1), Mask], 1, true, true, false),
    (
        GONE_BY,
        &[Takes(0), Mask, Takes(12)],
        12,
        true,
        false,
        false,
    ),
    (TAIL_BY, &[Takes(7), Takes(6)], 6, true, false, false),
];

/// Whether an instruction reads a register, sets it, and has two words for a function of a name.
fn uses(alloc: Global, op: Op, parts: &[Part], register: u32) -> Option<(bool, bool, bool)> {
    let place = Place::Register(physical(register)?);
    let i = made(alloc, op, parts)?;
    Some((i.uses(place), i.defines(place), i.decoded().has_site()))
}

/// The number of the first row that isn't so.
fn other_use(alloc: Global, rows: &[(Op, &[Part], u32, bool, bool, bool)]) -> Option<usize> {
    for (row, (op, parts, register, reads, sets, site)) in rows.iter().enumerate() {
        if uses(alloc, *op, parts, *register) != Some((*reads, *sets, *site)) {
            return Some(row);
        }
    }
    None
}

#[test]
fn uses_of_callees_and_halves(rt: HostRuntime) {
    assert_eq!(rt; other_use(rt.alloc(), USES), None);
}

/// An opcode, its operands, whether they have its form, and whether it reads and sets slot 1: a call that returns may
/// pass what is on the stack, and the callee owns it.
const PASSES: &[(Op, &[Part], bool, bool, bool)] = &[
    (
        Op::PseudoCall,
        &[Called, Mask, Takes(10), Passes(1)],
        true,
        true,
        true,
    ),
    (
        Op::PseudoCall,
        &[Called, Mask, Passes(0), Passes(2)],
        true,
        false,
        false,
    ),
    (
        CALL_BY,
        &[Use(11), Mask, Passes(0), Passes(1)],
        true,
        true,
        true,
    ),
    (
        Op::NoReturnCall,
        &[Called, Mask, Passes(1)],
        false,
        false,
        false,
    ),
    (GONE_BY, &[Takes(11), Mask, Passes(1)], false, false, false),
    (Op::PseudoTail, &[Called, Passes(1)], false, false, false),
    (TAIL_BY, &[Takes(11), Passes(1)], false, false, false),
    (Op::PseudoRet, &[Passes(1)], false, false, false),
    (
        ADDI,
        &[Def(10), Use(10), Imm(0), Passes(1)],
        false,
        false,
        false,
    ),
];

/// Whether an instruction has its form, and whether it reads and sets slot 1.
fn passes(alloc: Global, op: Op, parts: &[Part]) -> (bool, bool, bool) {
    let Some(i) = made(alloc, op, parts) else {
        return (false, false, false);
    };
    let reads = i.uses(Place::Slot(SlotId(1)));
    let sets = i.defines(Place::Slot(SlotId(1)));
    (true, reads, sets)
}

/// The number of the first row that isn't so.
fn other_passing(alloc: Global, rows: &[(Op, &[Part], bool, bool, bool)]) -> Option<usize> {
    for (row, (op, parts, fits, reads, sets)) in rows.iter().enumerate() {
        if passes(alloc, *op, parts) != (*fits, *reads, *sets) {
            return Some(row);
        }
    }
    None
}

#[test]
fn slots_that_calls_pass(rt: HostRuntime) {
    assert_eq!(rt; other_passing(rt.alloc(), PASSES), None);
}

/// Whether a call by a register, and what leaves by it, go to the code at its address.
fn goes_by(alloc: Global) -> Option<bool> {
    let held = Callee::Held(physical(11)?);
    let call = made(alloc, CALL_BY, &[Use(11), Mask])?.decoded();
    let tail = made(alloc, TAIL_BY, &[Takes(11)])?.decoded();
    let gone = made(alloc, GONE_BY, &[Takes(11), Mask])?.decoded();
    Some(
        call == Decoded::Calls(held)
            && tail == Decoded::Returns(Way::Tail(held))
            && gone == Decoded::Returns(Way::Never(held)),
    )
}

#[test]
fn what_callees_are(rt: HostRuntime) {
    assert!(rt; goes_by(rt.alloc()) == Some(true));
}
