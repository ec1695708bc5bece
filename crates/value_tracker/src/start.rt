//! The tracker's state at the start of a block.

ghost use Rattle.std.specs.Prelude.{
  ◌≡◌,
  ◌<◌,
  ◌≤◌,
  ◌+◌,
  ℕ,
  List,
  Some,
  None,
  Option,
  IfOk,
  length,
  map,
  slice_get,
  slice_index,
  slice_index_or,
  cond,
  nat_eq,
  nat_lt,
  ◌&&◌,
};
ghost use Rattle.value_solver.specs.declared.tracked.Tracked.{Tracked};
ghost use Rattle.value_solver.specs.Entry.{thing};
ghost use Rattle.value_proof.specs.Classes.{Classes};
ghost use Rattle.value_tracker.specs.Things.{AreThings, Indexes, IsOffset, Settle, settled_at};
ghost use Rattle.value_solver.specs.declared.tracked.Tracked.TheVariants.{Slot};
ghost use Rattle.value_tracker.specs.LocationTracker.{PLACES, Holds};
ghost use Rattle.value_tracker.specs.Start.{stands_at, PlacedBelow};

use crate::index::{TrackedIndex, number_class};
use crate::location_tracker::{LocationTracker, PLACES, SLOTS_FROM, slot_place};
use crate::part_list::PartList;
use std::alloc::{AllocError, Global};
use std::collections::HashMap;
use value_solver::entry::BlockEntry;
use value_solver::tracked::Tracked;

/// The limit on classes, exclusive: memory runs out before it.
const MOST_CLASSES: usize = 1 << 62;

/// The classes of this many entities at a block's start, and 0 for one without a token on every path. The error is out
/// of memory.
pub fn settle(alloc: Global, entry: &BlockEntry, count: usize) -> Result<Vec<usize>, AllocError>
    ensures count { IfOk result (λ s. length s.items ≡ count) }
    ensures each { IfOk result (λ s. (i : ℕ) → i < count →
        slice_index s.items i ≡ settled_at entry.now.classes entry.now.given i) }
{
    let classes = entry.classes.as_slice();
    let given = entry.given.as_slice();
    let mut settled = Vec::with_capacity(alloc, count)?;
    for i in 0..count {
        settled.push(settled_at(classes, given, i))?;
    }
    Ok(settled)
}

fn settled_at(classes: &[u32], given: &[bool], i: usize) -> usize
    ensures { result ≡ settled_at classes.now given.now i }
{
    if i < given.len() && given[i] && i < classes.len() {
        classes[i] as usize
    } else {
        0
    }
}

/// The tracker's state at the start of a block, by the classes of all entities there. The error is out of memory.
pub fn start(
    alloc: Global,
    things: &[Tracked],
    variables: &PartList,
    index: &TrackedIndex,
    settled: &[usize],
) -> Result<LocationTracker, AllocError>
    requires things { AreThings variables.now things.now }
    requires index { Indexes things.now index.now }
    requires settled { length settled.now ≡ length things.now }
    requires variables { length variables.now ≤ length things.now }
    ensures holds { IfOk result (λ h. (class : Classes) → Settle things.now settled.now class →
        Holds variables.now (map thing things.now) index.now settled.now h class) }
    ensures places { IfOk result (λ h. length h.places.items ≡ PLACES) }
    ensures parts { IfOk result (λ h. length h.parts.items ≡ length variables.now) }
    ensures next { IfOk result (λ h. (i : ℕ) → slice_index settled.now i < h.next) }
{
    let mut places = no_classes(alloc)?;
    place(&mut places, things, settled);
    set_fixed(&mut places, number_class(index, settled, 0));
    Ok(LocationTracker {
        places,
        pairs: HashMap::new(alloc),
        parts: Vec::from_slice(alloc, &settled[..variables.len()])?,
        next: next_after(settled)?,
    })
}

/// Locations without a class.
fn no_classes(alloc: Global) -> Result<Vec<usize>, AllocError>
    ensures count { IfOk result (λ places. length places.items ≡ PLACES) }
    ensures empty { IfOk result (λ places. (p : ℕ) → slice_index places.items p ≡ 0) }
{
    let mut places = Vec::with_capacity(alloc, PLACES)?;
    for _ in 0..PLACES {
        places.push(0)?;
    }
    Ok(places)
}

/// Sets x0 to the class of the constant 0, and clears that of x2.
fn set_fixed(places: &mut Vec<usize>, zero: usize)
    requires { length places.old.items ≡ PLACES }
    ensures places { (p : ℕ) → slice_index places.new.items p ≡ cond (nat_eq p 2) 0 (cond (nat_eq p 0) zero
        (slice_index places.old.items p)) }
    ensures count { length places.new.items ≡ PLACES }
{
    places[0] = zero;
    places[2] = 0;
}

/// The next new class: one above all others. The error is out of memory.
fn next_after(settled: &[usize]) -> Result<usize, AllocError>
    ensures { IfOk result (λ next. (i : ℕ) → slice_index settled.now i < next) }
{
    let mut next = 1;
    for i in 0..settled.len() {
        if settled[i] >= MOST_CLASSES {
            return Err(AllocError);
        }
        if settled[i] >= next {
            next = settled[i] + 1;
        }
    }
    Ok(next)
}

/// Sets the class of each location that is tracked.
fn place(places: &mut Vec<usize>, things: &[Tracked], settled: &[usize])
    requires count { length places.old.items ≡ PLACES }
    requires settled { length settled.now ≡ length things.now }
    requires empty { (p : ℕ) → slice_index places.old.items p ≡ 0 }
    requires slots { (j n : ℕ) → slice_get things.now j ≡ Some (Slot n) → IsOffset n }
    ensures count { length places.new.items ≡ PLACES }
    ensures placed { PlacedBelow things.now settled.now (length things.now) places.new.items }
{
    for i in 0..things.len() {
        set_place(places, &things[i], settled[i]);
    }
}

/// Sets the class of an entity's location, if it has one.
fn set_place(places: &mut Vec<usize>, thing: &Tracked, class: usize)
    requires { length places.old.items ≡ PLACES }
    ensures places { (p : ℕ) → slice_index places.new.items p ≡ cond (stands_at thing.now p) class
        (slice_index places.old.items p) }
    ensures count { length places.new.items ≡ PLACES }
{
    match thing {
        Tracked::Register(r) => set_within(places, r.number() as usize, SLOTS_FROM, class),
        Tracked::Slot(n) => set_within(places, slot_place(*n), PLACES, class),
        Tracked::Pair(_) => {}
        Tracked::Part(_) => {}
        Tracked::Number(_) => {}
    }
}

/// Sets the class at an index if it is below the end.
fn set_within(places: &mut Vec<usize>, i: usize, end: usize, class: usize)
    requires { end ≤ length places.old.items }
    ensures places { (p : ℕ) → slice_index places.new.items p ≡ cond (nat_eq p i && nat_lt p end) class
        (slice_index places.old.items p) }
    ensures count { length places.new.items ≡ length places.old.items }
{
    if i < end {
        places[i] = class;
    }
}
