//! The places of parts of variables before an item.

ghost use Rattle.std.specs.Prelude.{◌≡◌, ◌↔◌, ◌<◌, ◌≤◌, ℕ, Some, None, OnOk, IfOk, IsTrue, length, cond, nat_eq};
ghost use Rattle.std.specs.Prelude.{true, false, slice_index, slice_index_or};
ghost use Rattle.value_tracker.specs.LocationTracker.{PLACES};
ghost use Rattle.value_tracker.specs.ClassLocation.{place_of};
ghost use Rattle.location_ranges.specs.steps.Places.{IsEmpty, ArePlacesAt, Changes};

use crate::transfer_tracker::TransferTracker;
use rv64_instr::place::Place;
use std::alloc::AllocError;
use value_tracker::class_location::place_of;
use value_tracker::lowest_location::{empty, end_of, fill};

/// Looks up the place of each part of a variable before an item: the first location of its class, and None at an
/// unreached item. A table of first locations is filled for it, and emptied again. Returns whether a place changed, and
/// flags each that did. The error is out of memory.
pub fn look_up(
    stand: &TransferTracker,
    firsts: &mut Vec<Option<usize>>,
    places: &mut Vec<Option<Place>>,
    changed: &mut Vec<bool>,
) -> Result<bool, AllocError>
    requires count { length stand.now.held.places.items ≡ PLACES }
    requires parts { length stand.now.held.parts.items ≡ length places.old.items }
    requires flags { length changed.old.items ≡ length places.old.items }
    requires empty { IsEmpty firsts.old.items }
    ensures places { OnOk result (ArePlacesAt stand.now places.new.items) }
    ensures empty { OnOk result (IsEmpty firsts.new.items) }
    ensures count { OnOk result (length places.new.items ≡ length places.old.items) }
    ensures flags { OnOk result (length changed.new.items ≡ length places.old.items) }
    ensures changes { IfOk result (λ any. Changes places.old.items places.new.items changed.new.items any) }
{
    let located = stand.held.places.as_slice();
    let end = end_of(located);
    make_room(firsts, located, end)?;
    fill(firsts, located, end);
    let any = place_parts(places, changed, stand, firsts.as_slice());
    empty(firsts, located, end);
    Ok(any)
}

/// Sets the place of each part, by the first location of each class, and flags those that change. Whether any does.
fn place_parts(
    places: &mut Vec<Option<Place>>,
    changed: &mut Vec<bool>,
    stand: &TransferTracker,
    firsts: &[Option<usize>],
) -> bool
    requires parts { length stand.now.held.parts.items ≡ length places.old.items }
    requires flags { length changed.old.items ≡ length places.old.items }
    requires within { (k i : ℕ) → slice_index_or firsts.now k None ≡ Some i → i < PLACES }
    ensures places { (j : ℕ) → j < length places.new.items → slice_index_or places.new.items j None
        ≡ cond stand.now.reached (place_of firsts.now stand.now.constants.items
        (slice_index stand.now.held.parts.items j)) None }
    ensures count { length places.new.items ≡ length places.old.items }
    ensures flags { length changed.new.items ≡ length places.old.items }
    ensures changes { Changes places.old.items places.new.items changed.new.items result }
{
    let mut any = false;
    for j in 0..places.len() {
        let moved = renew_place(places, changed, stand, firsts, j);
        any = either(moved, any);
    }
    any
}

/// Sets the place of the part at an index, and its flag to whether that changes it, which is returned. Most parts have
/// neither a class nor a place.
fn renew_place(
    places: &mut Vec<Option<Place>>,
    changed: &mut Vec<bool>,
    stand: &TransferTracker,
    firsts: &[Option<usize>],
    j: usize,
) -> bool
    requires part { j < length places.old.items }
    requires flag { j < length changed.old.items }
    requires held { j < length stand.now.held.parts.items }
    requires within { (k i : ℕ) → slice_index_or firsts.now k None ≡ Some i → i < PLACES }
    ensures places { (k : ℕ) → slice_index_or places.new.items k None ≡ cond (nat_eq k j)
        (cond stand.now.reached (place_of firsts.now stand.now.constants.items
        (slice_index stand.now.held.parts.items j)) None) (slice_index_or places.old.items k None) }
    ensures changed { (k : ℕ) → slice_index_or changed.new.items k false
        ≡ cond (nat_eq k j) result (slice_index_or changed.old.items k false) }
    ensures same { result ≡ false → slice_index_or places.old.items j None ≡ cond stand.now.reached
        (place_of firsts.now stand.now.constants.items (slice_index stand.now.held.parts.items j)) None }
    ensures count { length places.new.items ≡ length places.old.items }
    ensures flags { length changed.new.items ≡ length changed.old.items }
{
    if is_idle(stand, places.as_slice(), j) {
        clear_flag(changed, j);
        return false;
    }
    let place = place_part(stand, firsts, j);
    set_place(places, changed, j, &place)
}

/// Whether the part at an index has no class, and no place.
fn is_idle(stand: &TransferTracker, places: &[Option<Place>], j: usize) -> bool
    requires { j < length stand.now.held.parts.items }
    ensures class { result ≡ true → slice_index stand.now.held.parts.items j ≡ 0 }
    ensures place { result ≡ true → slice_index_or places.now j None ≡ None }
{
    match part_class(stand, j) {
        0 => has_no_place(places, j),
        _ => false,
    }
}

fn part_class(stand: &TransferTracker, j: usize) -> usize
    requires { j < length stand.now.held.parts.items }
    ensures { result ≡ slice_index stand.now.held.parts.items j }
{
    stand.held.parts[j]
}

fn has_no_place(places: &[Option<Place>], j: usize) -> bool
    ensures { result ≡ true → slice_index_or places.now j None ≡ None }
{
    match places.get(j) {
        Some(place) => place.is_none(),
        None => true,
    }
}

fn clear_flag(changed: &mut Vec<bool>, j: usize)
    requires { j < length changed.old.items }
    ensures changed { (k : ℕ) → slice_index_or changed.new.items k false
        ≡ cond (nat_eq k j) false (slice_index_or changed.old.items k false) }
    ensures count { length changed.new.items ≡ length changed.old.items }
{
    changed[j] = false;
}

/// Sets the place of the part at an index, and its flag to whether that changes it, which is returned.
fn set_place(
    places: &mut Vec<Option<Place>>,
    changed: &mut Vec<bool>,
    j: usize,
    place: &Option<Place>,
) -> bool
    requires part { j < length places.old.items }
    requires flag { j < length changed.old.items }
    ensures places { (k : ℕ) → slice_index_or places.new.items k None
        ≡ cond (nat_eq k j) place.now (slice_index_or places.old.items k None) }
    ensures changed { (k : ℕ) → slice_index_or changed.new.items k false
        ≡ cond (nat_eq k j) result (slice_index_or changed.old.items k false) }
    ensures same { result ≡ false → slice_index_or places.old.items j None ≡ place.now }
    ensures count { length places.new.items ≡ length places.old.items }
    ensures flags { length changed.new.items ≡ length changed.old.items }
{
    let moved = !is_same(&places[j], place);
    places[j] = *place;
    changed[j] = moved;
    moved
}

/// Whether both are the same place, or none.
fn is_same(a: &Option<Place>, b: &Option<Place>) -> bool
    ensures { IsTrue result ↔ (a.now ≡ b.now) }
{
    match (a, b) {
        (None, None) => true,
        (Some(place), Some(same)) => place == same,
        (None, Some(_)) | (Some(_), None) => false,
    }
}

fn either(a: bool, b: bool) -> bool
    ensures { result ≡ cond a true b }
{
    a || b
}

/// The place of the part at an index, by the first location of its class.
fn place_part(stand: &TransferTracker, firsts: &[Option<usize>], j: usize) -> Option<Place>
    requires part { j < length stand.now.held.parts.items }
    requires within { (k i : ℕ) → slice_index_or firsts.now k None ≡ Some i → i < PLACES }
    ensures { result ≡ cond stand.now.reached (place_of firsts.now stand.now.constants.items
        (slice_index stand.now.held.parts.items j)) None }
{
    if stand.reached {
        place_of(firsts, stand.constants.as_slice(), stand.held.parts[j])
    } else {
        None
    }
}

/// Extends a table to the class of each location. Those from an index on have no class.
fn make_room(
    firsts: &mut Vec<Option<usize>>,
    places: &[usize],
    end: usize,
) -> Result<(), AllocError>
    requires empty { IsEmpty firsts.old.items }
    requires within { end ≤ length places.now }
    requires rest { (i : ℕ) → end ≤ i → slice_index places.now i ≡ 0 }
    ensures empty { OnOk result (IsEmpty firsts.new.items) }
    ensures room { OnOk result ((i : ℕ) → i < length places.now → slice_index places.now i < length firsts.new.items) }
{
    extend(firsts, 0)?;
    for i in 0..end {
        extend(firsts, places[i])?;
    }
    Ok(())
}

/// Extends a table to a class.
fn extend(firsts: &mut Vec<Option<usize>>, class: usize) -> Result<(), AllocError>
    requires { IsEmpty firsts.old.items }
    ensures empty { OnOk result (IsEmpty firsts.new.items) }
    ensures room { OnOk result (class < length firsts.new.items) }
    ensures grown { OnOk result (length firsts.old.items ≤ length firsts.new.items) }
{
    if class < firsts.len() {
        return Ok(());
    }
    for _ in firsts.len()..class {
        firsts.push(None)?;
    }
    firsts.push(None)?;
    Ok(())
}
