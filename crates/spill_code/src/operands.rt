//! The operands of code in which registers are spilled.

ghost use Rattle.std.specs.Prelude.{◌≡◌, IfOk, map};
ghost use Rattle.spill_code.specs.Rewrite.{slot_used, slot_defined, unless_is, first_used, other_used, first_defined};
ghost use Rattle.spill_code.specs.Rewrite.{use_now, def_now, renamed_operand, spilled_code};

use crate::spilling::{SlotAssignment, Spilling, slot_of};
use base_ids::function_ids::SlotId;
use mir_func::rv64_instr_crate::instr::Instr;
use mir_func::rv64_instr_crate::operand::{Operand, Operands};
use mir_func::rv64_instr_crate::reg::Reg;
use std::alloc::{AllocError, Global};

/// The slot of the first spilled register that operands read.
pub fn first_used(homes: &[SlotAssignment], operands: &[Operand]) -> Option<SlotId>
    ensures { result ≡ first_used homes.now operands.now }
{
    for operand in operands {
        if let Some(slot) = slot_used(homes, operand) {
            return Some(slot);
        }
    }
    None
}

/// The first such slot other than this one.
pub fn other_used(homes: &[SlotAssignment], slot: SlotId, operands: &[Operand]) -> Option<SlotId>
    ensures { result ≡ other_used homes.now slot operands.now }
{
    for operand in operands {
        if let Some(other) = unless_is(slot, slot_used(homes, operand)) {
            return Some(other);
        }
    }
    None
}

/// The slot of the first spilled register that operands set.
pub fn first_defined(homes: &[SlotAssignment], operands: &[Operand]) -> Option<SlotId>
    ensures { result ≡ first_defined homes.now operands.now }
{
    for operand in operands {
        if let Some(slot) = slot_defined(homes, operand) {
            return Some(slot);
        }
    }
    None
}

fn slot_used(homes: &[SlotAssignment], operand: &Operand) -> Option<SlotId>
    ensures { result ≡ slot_used homes.now operand.now }
{
    match operand {
        Operand::Use(r) => slot_of(homes, *r),
        Operand::ImplicitUse(_)
        | Operand::Def(_)
        | Operand::ImplicitDef(_)
        | Operand::Slot(_)
        | Operand::Object(_)
        | Operand::Part(_, _)
        | Operand::Outgoing(_)
        | Operand::GlobalRegisters
        | Operand::Imm(_)
        | Operand::Symbol(_)
        | Operand::Block(_)
        | Operand::Mask => None,
    }
}

fn slot_defined(homes: &[SlotAssignment], operand: &Operand) -> Option<SlotId>
    ensures { result ≡ slot_defined homes.now operand.now }
{
    match operand {
        Operand::Def(r) => slot_of(homes, *r),
        Operand::ImplicitDef(_)
        | Operand::Use(_)
        | Operand::ImplicitUse(_)
        | Operand::Mask
        | Operand::Block(_)
        | Operand::Symbol(_)
        | Operand::Imm(_)
        | Operand::Slot(_)
        | Operand::Object(_)
        | Operand::Part(_, _)
        | Operand::Outgoing(_)
        | Operand::GlobalRegisters => None,
    }
}

/// The optional slot, unless it is this one.
fn unless_is(slot: SlotId, other: Option<SlotId>) -> Option<SlotId>
    ensures { result ≡ unless_is slot other }
{
    match other {
        None => None,
        Some(n) => {
            if slot.number() == n.number() {
                None
            } else {
                Some(n)
            }
        }
    }
}

/// The register that replaces one that is read, if this is the first slot that is read.
fn use_now(s: &Spilling, slot: Option<SlotId>, r: Reg) -> Reg
    ensures { result ≡ use_now s.now slot r }
{
    match (slot, slot_of(s.homes.as_slice(), r)) {
        (_, None) => r,
        (None, Some(_)) => s.second,
        (Some(m), Some(n)) => {
            if m.number() == n.number() {
                s.first
            } else {
                s.second
            }
        }
    }
}

/// The register that replaces one that is set.
fn def_now(s: &Spilling, r: Reg) -> Reg
    ensures { result ≡ def_now s.now r }
{
    match slot_of(s.homes.as_slice(), r) {
        None => r,
        Some(_) => s.first,
    }
}

/// The operand, with scratch registers in place of spilled ones.
fn renamed_operand(
    s: &Spilling,
    slot: Option<SlotId>,
    operand: &Operand,
) -> Result<Operand, AllocError>
    ensures { IfOk result (λ o. o ≡ renamed_operand (use_now s.now slot) (def_now s.now) operand.now) }
{
    match operand {
        Operand::Use(r) => Ok(Operand::Use(use_now(s, slot, *r))),
        Operand::Def(r) => Ok(Operand::Def(def_now(s, *r))),
        Operand::ImplicitDef(_)
        | Operand::ImplicitUse(_)
        | Operand::Imm(_)
        | Operand::Slot(_)
        | Operand::Object(_)
        | Operand::Part(_, _)
        | Operand::Outgoing(_)
        | Operand::GlobalRegisters
        | Operand::Block(_)
        | Operand::Symbol(_)
        | Operand::Mask => operand.copy(),
    }
}

fn renamed_operands(
    alloc: Global,
    s: &Spilling,
    slot: Option<SlotId>,
    operands: &[Operand],
) -> Result<Operands, AllocError>
    ensures { IfOk result (λ os. os ≡ map (renamed_operand (use_now s.now slot) (def_now s.now)) operands.now) }
{
    let mut renamed = Operands::new(alloc);
    for operand in operands {
        renamed.push(renamed_operand(s, slot, operand)?)?;
    }
    Ok(renamed)
}

/// The instruction, with scratch registers in place of spilled ones.
pub fn spilled_code(alloc: Global, s: &Spilling, i: &Instr) -> Result<Instr, AllocError>
    ensures { IfOk result (λ made. made ≡ spilled_code s.now i.now) }
{
    let slot = first_used(s.homes.as_slice(), i.operands.as_slice());
    Ok(Instr {
        op: i.op,
        operands: renamed_operands(alloc, s, slot, i.operands.as_slice())?,
        volatile: i.volatile,
    })
}
