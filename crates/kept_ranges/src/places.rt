//! The places of parts of variables that a callee keeps.

ghost use Rattle.std.specs.Prelude.{◌≡◌, ◌<◌, ◌≤◌, ℕ, None, IfOk, OnOk, cond, nat_eq, length, slice_index};
ghost use Rattle.std.specs.Prelude.{slice_index_or};
ghost use Rattle.std.specs.List.{list_any};
ghost use Rattle.rv64_instr.specs.DefsAndUses.{caller_saved};
ghost use Rattle.value_tracker.specs.LocationTracker.{PLACES, is_slot_at};
ghost use Rattle.location_ranges.specs.steps.Places.{IsEmpty};
ghost use Rattle.kept_ranges.specs.Calls.{slots_passed};
ghost use Rattle.kept_ranges.specs.steps.Places.{AreKeptPlacesAt};

use location_ranges::places::look_up;
use location_ranges::transfer_tracker::TransferTracker;
use mir_func::item::ItemKind;
use rv64_instr::effects::is_caller_saved;
use rv64_instr::place::Place;
use rv64_instr::reg::physical;
use std::alloc::{AllocError, Global};
use std::mem;
use value_tracker::location_tracker::{LocationTracker, SLOTS_FROM};

/// The place of each part of a variable before an item from which control goes to a callee, of those that the callee
/// keeps: the first location of its class, and None at an unreached item. The state is as before; a table of first
/// locations is filled and emptied again. `count` is that of the parts. The error is out of memory.
pub fn kept_places(
    alloc: Global,
    stand: &mut TransferTracker,
    kind: &ItemKind,
    firsts: &mut Vec<Option<usize>>,
    count: usize,
) -> Result<Vec<Option<Place>>, AllocError>
    requires places { length stand.old.held.places.items ≡ PLACES }
    requires parts { length stand.old.held.parts.items ≡ count }
    requires empty { IsEmpty firsts.old.items }
    ensures places { IfOk result (λ places. AreKeptPlacesAt (slots_passed kind.now) stand.old places.items) }
    ensures count { IfOk result (λ places. length places.items ≡ count) }
    ensures empty { OnOk result (IsEmpty firsts.new.items) }
    ensures stand { OnOk result (stand.new ≡ stand.old) }
{
    let callee_saved = without_caller_saved(alloc, stand.held.places.as_slice())?;
    let all = mem::replace(&mut stand.held.places, callee_saved);
    clear_passed(&mut stand.held, kind);
    let mut places = vec![in alloc; None; count]?;
    let mut changed = vec![in alloc; false; count]?;
    look_up(stand, firsts, &mut places, &mut changed)?;
    stand.held.places = all;
    Ok(places)
}

/// The classes of locations, with 0 for the caller-saved registers.
fn without_caller_saved(alloc: Global, places: &[usize]) -> Result<Vec<usize>, AllocError>
    requires { length places.now ≡ PLACES }
    ensures places { IfOk result (λ kept. (i : ℕ) → slice_index kept.items i
        ≡ cond (list_any (nat_eq i) caller_saved) 0 (slice_index places.now i)) }
    ensures count { IfOk result (λ kept. length kept.items ≡ PLACES) }
{
    let mut kept = Vec::from_slice(alloc, places)?;
    clear_caller_saved(&mut kept);
    Ok(kept)
}

/// Sets the classes of the caller-saved registers to 0.
fn clear_caller_saved(places: &mut [usize])
    requires count { PLACES ≤ length places.old }
    ensures { (i : ℕ) → slice_index places.new i ≡ cond (list_any (nat_eq i) caller_saved) 0 (slice_index places.old i) }
{
    for r in 0..SLOTS_FROM {
        if is_saved_by_caller(r) {
            places[r] = 0;
        }
    }
}

/// Whether the location with this index is a register that a call sets.
fn is_saved_by_caller(i: usize) -> bool
    requires { i < PLACES }
    ensures { result ≡ list_any (nat_eq i) caller_saved }
{
    match physical(i as u32) {
        Some(r) => is_caller_saved(r),
        None => false,
    }
}

/// Clears the classes of the slots that an item passes.
fn clear_passed(held: &mut LocationTracker, kind: &ItemKind)
    requires { length held.old.places.items ≡ PLACES }
    ensures places { (i : ℕ) → slice_index held.new.places.items i
        ≡ cond (is_slot_at (slots_passed kind.now) i) 0 (slice_index held.old.places.items i) }
    ensures count { length held.new.places.items ≡ length held.old.places.items }
    ensures pairs { held.new.pairs ≡ held.old.pairs }
    ensures parts { held.new.parts ≡ held.old.parts }
    ensures next { held.new.next ≡ held.old.next }
{
    if let ItemKind::Code(instr, _) = kind {
        held.clear_passed(instr.operands.as_slice());
    }
}
