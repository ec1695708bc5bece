//! Which registers of a reserve are spilled.

ghost use Rattle.std.specs.Prelude.{◌≡◌, ◌<◌, ◌+◌, ◌^◌, ◌&&◌, length, max, IfOk};
ghost use Rattle.pass_liveness.specs.mir_func.Limits.{MAX_SLOTS};
ghost use Rattle.spill_rule.specs.pass_trait.Causes.{is_named};
ghost use Rattle.spill_rule.specs.pass_trait.Sizes.{greatest};
ghost use Rattle.spill_rule.specs.Choice.{is_bound, is_looped, lacks_scratch, is_free, candidates, room};
ghost use Rattle.spill_rule.specs.Choice.{chosen, next_slot};
ghost use Rattle.spill_rule.specs.Choice.{homes_from, spilling_of, entry_of, reason_of};
ghost use Rattle.spill_select.specs.Incoming.{is_among};
ghost use Rattle.spill_select.specs.Left.{first_reason};

use crate::among::is_among;
use crate::scratch::{first_scratch, scratch_of, second_scratch};
use base_ids::function_ids::SlotId;
use pass_liveness::mir_func_crate::func::Func;
use pass_liveness::mir_func_crate::limits::MAX_SLOTS;
use pass_liveness::rv64_instr_crate::reg::{Reg, Registers};
use spill_rule::named::{is_bound, is_looped, is_named};
use spill_rule::pass_trait_crate::loss::Reason;
use spill_rule::spill_code_crate::spilling::{SlotAssignment, SlotAssignments, Spilling};
use std::alloc::{AllocError, Global};

/// The scratch registers of a function, and the slots of the registers of a reserve that are spilled, by the rule.
/// `incoming` are the registers that are live into the first block.
pub fn choose(
    alloc: Global,
    reserve: &[Reg],
    incoming: &[Reg],
    f: &Func,
) -> Result<Spilling, AllocError>
    requires { greatest f.now.slots + MAX_SLOTS < 2 ^ 31 }
    ensures { IfOk result (λ s. s ≡ spilling_of reserve.now (is_among incoming.now) f.now) }
{
    let scratch = scratch_of(alloc, f)?;
    let chosen = chosen(alloc, reserve, incoming, f)?;
    Ok(Spilling {
        first: first_scratch(scratch.as_slice()),
        second: second_scratch(scratch.as_slice()),
        homes: homes_from(alloc, next_slot(f.slots.as_slice()), chosen.as_slice())?,
    })
}

/// The registers of a reserve that are spilled.
fn chosen(
    alloc: Global,
    reserve: &[Reg],
    incoming: &[Reg],
    f: &Func,
) -> Result<Registers, AllocError>
    ensures chosen { IfOk result (λ registers. registers ≡ chosen reserve.now (is_among incoming.now) f.now) }
    ensures few { IfOk result (λ registers. length registers < MAX_SLOTS + 1) }
{
    let facts = Facts {
        lacks_scratch: lacks_scratch(alloc, f)?,
        is_looped: is_looped(f),
    };
    let mut registers = Registers::from_slice(alloc, reserve)?;
    keep_candidates(f, &facts, incoming, &mut registers.items);
    registers.items.truncate(room(f));
    Ok(registers)
}

/// The conditions on a function that prevent all registers from being spilled, or those that are live into it.
#[derive(Clone, Copy, Debug)]
pub struct Facts {
    /// Fewer than two scratch registers are free.
    pub lacks_scratch: bool,
    /// Whether some branch goes to the first block.
    pub is_looped: bool,
}

/// Whether fewer than two scratch registers are free.
pub fn lacks_scratch(alloc: Global, f: &Func) -> Result<bool, AllocError>
    ensures { IfOk result (λ lacks. lacks ≡ lacks_scratch f.now) }
{
    let scratch = scratch_of(alloc, f)?;
    Ok(scratch.len() < 2)
}

/// Keeps only the candidates; the facts must be those of the function.
fn keep_candidates(f: &Func, facts: &Facts, incoming: &[Reg], registers: &mut Vec<Reg>)
    ensures { facts.now.lacks_scratch ≡ lacks_scratch f.now → facts.now.is_looped ≡ is_looped f.now →
        registers.new.items ≡ candidates registers.old.items (is_among incoming.now) f.now }
{
    registers.retain(|r| is_candidate(f, facts, incoming, *r));
}

/// Whether code names the register, and nothing prevents it from being spilled.
fn is_candidate(f: &Func, facts: &Facts, incoming: &[Reg], r: Reg) -> bool
    ensures { result ≡ (is_named f.now r &&
        is_free (first_reason facts.now.lacks_scratch (is_bound f.now r)
        (is_among incoming.now r && facts.now.is_looped))) }
{
    is_named(f, r) && reason_of(f, facts, incoming, r).is_none()
}

/// Why a register can't be spilled, apart from a lack of slots: the first reason that applies.
pub fn reason_of(f: &Func, facts: &Facts, incoming: &[Reg], r: Reg) -> Option<Reason>
    ensures { result
        ≡ first_reason facts.now.lacks_scratch (is_bound f.now r) (is_among incoming.now r && facts.now.is_looped) }
{
    if facts.lacks_scratch {
        return Some(Reason::NoScratch);
    }
    if is_bound(f, r) {
        return Some(Reason::CallNamed);
    }
    if is_among(incoming, r) && facts.is_looped {
        return Some(Reason::EntryLoop);
    }
    None
}

/// How many more slots the function may have.
fn room(f: &Func) -> usize
    ensures { result ≡ room f.now }
{
    MAX_SLOTS
        .saturating_sub(f.slots.len())
        .saturating_sub(f.objects.len())
}

/// The number above the greatest slot, or 0 if there are no slots.
pub fn next_slot(slots: &[SlotId]) -> u32
    requires { greatest slots.now + 1 < 2 ^ 32 }
    ensures { result ≡ next_slot slots.now }
{
    if slots.is_empty() {
        0
    } else {
        greatest(slots) + 1
    }
}

/// The greatest of some slots, or 0.
fn greatest(slots: &[SlotId]) -> u32
    ensures { result ≡ greatest slots.now }
{
    let mut most: u32 = 0;
    for slot in slots {
        most = greater(most, slot.number());
    }
    most
}

/// The greater of two numbers.
fn greater(a: u32, b: u32) -> u32
    ensures { result ≡ max a b }
{
    if a < b { b } else { a }
}

/// The registers, each with a slot of its own, numbered upwards from `slot`.
pub fn homes_from(
    alloc: Global,
    slot: u32,
    registers: &[Reg],
) -> Result<SlotAssignments, AllocError>
    requires { slot + length registers.now < 2 ^ 32 }
    ensures { IfOk result (λ homes. homes ≡ homes_from slot registers.now) }
{
    let mut homes = SlotAssignments::new(alloc);
    let mut slot = slot;
    for r in registers {
        homes.push(SlotAssignment {
            register: *r,
            slot: SlotId(slot),
        })?;
        slot += 1;
    }
    Ok(homes)
}

/// The spilled registers that are live into the function.
pub fn entry_of(
    alloc: Global,
    incoming: &[Reg],
    homes: &[SlotAssignment],
) -> Result<SlotAssignments, AllocError>
    ensures { IfOk result (λ entry. entry ≡ entry_of (is_among incoming.now) homes.now) }
{
    let mut entry = SlotAssignments::from_slice(alloc, homes)?;
    keep_incoming(incoming, &mut entry.items);
    Ok(entry)
}

fn keep_incoming(incoming: &[Reg], homes: &mut Vec<SlotAssignment>)
    ensures { homes.new.items ≡ entry_of (is_among incoming.now) homes.old.items }
{
    homes.retain(|h| is_among(incoming, h.register));
}
