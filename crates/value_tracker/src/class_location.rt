//! The first location of a class, by tables of locations and constants.

ghost use Rattle.std.specs.Prelude.{
  ◌≡◌,
  ◌<◌,
  ◌≤◌,
  ◌+◌,
  ◌*◌,
  ◌-◌,
  ℕ,
  List,
  Some,
  None,
  Option,
  IfOk,
  IfSome,
  length,
  slice_get,
  slice_index,
  slice_index_or,
  cond,
};
ghost use Rattle.value_solver.specs.declared.tracked.Tracked.{Tracked};
ghost use Rattle.value_proof.specs.Classes.{Classes};
ghost use Rattle.value_tracker.specs.Things.{Settle};
ghost use Rattle.value_tracker.specs.LocationTracker.{PLACES};
ghost use Rattle.value_tracker.specs.Start.{IsConstantOf, ConstantsNow, constant_past};
ghost use Rattle.value_tracker.specs.ClassLocation.{place_of, place_at, place_by};

use crate::location_tracker::SLOTS_FROM;
use base_ids::function_ids::SlotId;
use rv64_instr::place::Place;
use rv64_instr::reg::physical;
use std::alloc::{AllocError, Global};
use value_solver::tracked::Tracked;

/// The constant of each class that a tracked number has, by the classes of all entities and the next new class. The
/// error is out of memory.
pub fn constants(
    alloc: Global,
    things: &[Tracked],
    settled: &[usize],
    next: usize,
) -> Result<Vec<Option<i64>>, AllocError>
    requires settled { length settled.now ≡ length things.now }
    requires next { (i : ℕ) → slice_index settled.now i < next }
    ensures count { IfOk result (λ v. length v.items ≡ next) }
    ensures constants { IfOk result (λ v. (class : Classes) → Settle things.now settled.now class →
        ConstantsNow things.now class v.items) }
{
    let mut constants = vec![in alloc; None; next]?;
    for i in 0..things.len() {
        set_constant(&mut constants, settled[i], constant_of(&things[i]));
    }
    Ok(constants)
}

/// Enters a constant for a class, if there is one.
fn set_constant(constants: &mut Vec<Option<i64>>, class: usize, c: Option<i64>)
    requires { class < length constants.old.items }
    ensures constants { (k : ℕ) → slice_index_or constants.new.items k None ≡ constant_past c class k
        (slice_index_or constants.old.items k None) }
    ensures count { length constants.new.items ≡ length constants.old.items }
{
    match c {
        None => {}
        Some(c) => constants[class] = Some(c),
    }
}

/// The constant of an entity, signed, or None if it is no number.
fn constant_of(thing: &Tracked) -> Option<i64>
    ensures { IsConstantOf thing.now result }
{
    match thing {
        Tracked::Number(n) => Some(n.cast_signed()),
        Tracked::Register(_) => None,
        Tracked::Slot(_) => None,
        Tracked::Pair(_) => None,
        Tracked::Part(_) => None,
    }
}

/// The first location of a class: its constant, or else the location that the table has for it. None for class 0.
pub fn place_of(firsts: &[Option<usize>], constants: &[Option<i64>], class: usize) -> Option<Place>
    requires { (k i : ℕ) → slice_index_or firsts.now k None ≡ Some i → i < PLACES }
    ensures { result ≡ place_of firsts.now constants.now class }
{
    if class == 0 {
        return None;
    }
    match constant_at(constants, class) {
        Some(c) => Some(Place::Const(c)),
        None => place_by(first_at(firsts, class)),
    }
}

fn constant_at(constants: &[Option<i64>], class: usize) -> Option<i64>
    ensures { result ≡ slice_index_or constants.now class None }
{
    if class < constants.len() {
        constants[class]
    } else {
        None
    }
}

fn first_at(firsts: &[Option<usize>], class: usize) -> Option<usize>
    ensures { result ≡ slice_index_or firsts.now class None }
{
    if class < firsts.len() {
        firsts[class]
    } else {
        None
    }
}

fn place_by(first: Option<usize>) -> Option<Place>
    requires { IfSome first (λ i. i < PLACES) }
    ensures { result ≡ place_by first }
{
    match first {
        None => None,
        Some(i) => Some(place_at(i)),
    }
}

/// The register or the doubleword of the frame with this location index.
fn place_at(i: usize) -> Place
    requires { i < PLACES }
    ensures { result ≡ place_at i }
{
    match physical(i as u32) {
        Some(r) => Place::Register(r),
        None => Place::Slot(SlotId(8 * (i - SLOTS_FROM) as u32)),
    }
}
