//! Registers of a reserve that aren't spilled, and why.

ghost use Rattle.std.specs.Prelude.{◌≡◌, ◌&&◌, cond, None, IfOk};
ghost use Rattle.spill_rule.specs.pass_trait.Causes.{is_named};
ghost use Rattle.spill_rule.specs.spill_code.Rewrite.{slot_of};
ghost use Rattle.spill_rule.specs.Choice.{is_bound, homes_of};
ghost use Rattle.spill_select.specs.Incoming.{is_among};
ghost use Rattle.spill_select.specs.Left.{first_reason, or_no_slot, why_left, registers_left};

use crate::choice::{Facts, lacks_scratch, reason_of};
use pass_liveness::mir_func_crate::func::Func;
use pass_liveness::rv64_instr_crate::reg::Reg;
use spill_rule::named::{is_looped, is_named};
use spill_rule::pass_trait_crate::loss::{Loss, Losses, Lost, Reason};
use spill_rule::spill_code_crate::spilling::{SlotAssignment, slot_of};
use std::alloc::{AllocError, Global};

/// The losses of the registers of a reserve that code names and that aren't spilled, each with the first reason that
/// applies, in the order of the reserve. `homes` are the spilled registers and their slots.
pub fn registers_left(
    alloc: Global,
    reserve: &[Reg],
    incoming: &[Reg],
    homes: &[SlotAssignment],
    f: &Func,
) -> Result<Losses, AllocError>
    requires { homes.now ≡ homes_of reserve.now (is_among incoming.now) f.now }
    ensures { IfOk result (λ losses. losses ≡ registers_left reserve.now (is_among incoming.now) f.now) }
{
    let facts = Facts {
        lacks_scratch: lacks_scratch(alloc, f)?,
        is_looped: is_looped(f),
    };
    let mut losses = Losses::new(alloc);
    for r in reserve {
        if let Some(why) = why_left(f, &facts, incoming, homes, *r) {
            losses.push(Loss {
                what: Lost::Register(*r),
                reason: why,
            })?;
        }
    }
    Ok(losses)
}

/// Why a register isn't spilled, if code names it.
fn why_left(
    f: &Func,
    facts: &Facts,
    incoming: &[Reg],
    homes: &[SlotAssignment],
    r: Reg,
) -> Option<Reason>
    ensures { result ≡ cond (is_named f.now r)
        (or_no_slot (first_reason facts.now.lacks_scratch (is_bound f.now r)
        (is_among incoming.now r && facts.now.is_looped))
        (slot_of homes.now r)) None }
{
    if !is_named(f, r) {
        return None;
    }
    match reason_of(f, facts, incoming, r) {
        Some(why) => Some(why),
        None => no_slot(homes, r),
    }
}

/// That there was no slot for a register, if it has none.
fn no_slot(homes: &[SlotAssignment], r: Reg) -> Option<Reason>
    ensures { result ≡ or_no_slot None (slot_of homes.now r) }
{
    match slot_of(homes, r) {
        None => Some(Reason::NoSlot),
        Some(_) => None,
    }
}
