//! What the last lookup of places saw, by which the next one is left out where it would change nothing.

ghost use Rattle.std.specs.Prelude.{◌≡◌, ◌≢◌, ◌<◌, ◌⊎◌, ℕ, Some, IfOk, OnOk, IsTrue, true, false, length, slice_index, slice_index_or};
ghost use Rattle.location_ranges.specs.steps.Seen.{Unconcerned, IsStill, Rests, Sees};

use crate::transfer_tracker::TransferTracker;
use std::alloc::{AllocError, Global};

/// The classes at the last lookup of places.
#[derive(Drop)]
pub struct Seen {
    /// The class of each machine location.
    pub places: Vec<usize>,
    /// Whether some part of a variable had a class, by the class. A class of earlier parts may still be flagged.
    pub used: Vec<bool>,
}

/// Whether a lookup would change no place: `same` says that the state was moved on in its block, from the item of the
/// last lookup.
pub fn rests(seen: &Option<Seen>, stand: &TransferTracker, same: bool, from: usize) -> bool
    ensures { IsTrue result → Rests seen.now stand.now same from }
{
    match seen {
        None => false,
        Some(seen) => {
            if !same {
                return false;
            }
            if !stand.reached {
                return false;
            }
            if stand.marked > from {
                return false;
            }
            is_still(seen, stand.held.places.as_slice())
        }
    }
}

/// Whether each location has the class that it had, or none of the two is the class of a part.
fn is_still(seen: &Seen, places: &[usize]) -> bool
    ensures { IsTrue result → IsStill seen.now places.now }
{
    if seen.places.len() != places.len() {
        return false;
    }
    none_concerns(seen.used.as_slice(), seen.places.as_slice(), places)
}

/// Whether no location's class differs where one of the two is the class of a part.
fn none_concerns(used: &[bool], old: &[usize], new: &[usize]) -> bool
    requires { length old.now ≡ length new.now }
    ensures { IsTrue result → (i : ℕ) → i < length new.now → Unconcerned used.now old.now new.now i }
{
    for i in 0..new.len() {
        if concerns_at(used, old, new, i) {
            return false;
        }
    }
    true
}

fn concerns_at(used: &[bool], old: &[usize], new: &[usize], i: usize) -> bool
    requires old { i < length old.now }
    requires new { i < length new.now }
    ensures { result ≡ false → Unconcerned used.now old.now new.now i }
{
    concerns(used, old[i], new[i])
}

/// Whether two classes differ and one of them is the class of a part.
fn concerns(used: &[bool], old: usize, new: usize) -> bool
    ensures { result ≡ false → (old ≡ new)
        ⊎ ((slice_index_or used.now old false ≡ false) × (slice_index_or used.now new false ≡ false)) }
{
    if old == new {
        return false;
    }
    if is_used(used, old) {
        return true;
    }
    is_used(used, new)
}

fn is_used(used: &[bool], class: usize) -> bool
    ensures { result ≡ slice_index_or used.now class false }
{
    match used.get(class) {
        Some(used) => *used,
        None => false,
    }
}

/// What a lookup at a reached state saw. The table of the lookup before is taken on if
/// that was in the same block. The error is out of memory.
pub fn see(
    alloc: Global,
    stand: &TransferTracker,
    before: Option<Seen>,
    same: bool,
) -> Result<Option<Seen>, AllocError>
    ensures { IfOk result (λ o. (z : Seen) → o ≡ Some z → Sees z stand.now) }
{
    if !stand.reached {
        return Ok(None);
    }
    let mut used = table_of(alloc, before, same);
    flag_all(&mut used, stand.held.parts.as_slice())?;
    let places = Vec::from_slice(alloc, stand.held.places.as_slice())?;
    Ok(Some(Seen { places, used }))
}

/// The table of an earlier lookup in the block, or an empty one.
fn table_of(alloc: Global, before: Option<Seen>, same: bool) -> Vec<bool> {
    match before {
        None => Vec::new(alloc),
        Some(Seen { places: _, used }) => { if same { used } else { Vec::new(alloc) } }
    }
}

/// Flags each of these classes but 0.
fn flag_all(used: &mut Vec<bool>, classes: &[usize]) -> Result<(), AllocError>
    ensures { OnOk result ((j : ℕ) → j < length classes.now → slice_index classes.now j ≢ 0 →
        slice_index_or used.new.items (slice_index classes.now j) false ≡ true) }
{
    for j in 0..classes.len() {
        flag(used, classes[j])?;
    }
    Ok(())
}

/// Flags a class, unless it is 0.
fn flag(used: &mut Vec<bool>, class: usize) -> Result<(), AllocError>
    ensures here { OnOk result (class ≢ 0 → slice_index_or used.new.items class false ≡ true) }
    ensures others { OnOk result ((c : ℕ) → slice_index_or used.old.items c false ≡ true →
        slice_index_or used.new.items c false ≡ true) }
{
    if class == 0 {
        return Ok(());
    }
    if class < used.len() {
        used[class] = true;
        return Ok(());
    }
    for _ in used.len()..class {
        used.push(false)?;
    }
    used.push(true)?;
    Ok(())
}
