//! Whether a place holds the value of a class.

ghost use Rattle.std.specs.Prelude.{◌≡◌, ◌≢◌, ◌↔◌, ◌%◌, true, IsTrue, cond, nat_eq, nat_lt, slice_index};
ghost use Rattle.rv64_instr.specs.declared.place.Place.TheVariants.{Const};
ghost use Rattle.rv64_instr.specs.Arithmetic.{word};
ghost use Rattle.sem_mir.specs.PreferredLocation.{IsPlace};
ghost use Rattle.value_tracker.specs.LocationTracker.{slot_place};
ghost use Rattle.value_queries.specs.Sitting.{IsFit, SitsByClass, named_class};

use crate::point::QueryPoint;
use base_ids::function_ids::SlotId;
use rv64_instr::place::Place;
use rv64_instr::reg::Reg;
use value_tracker::index::number_class;
use value_tracker::location_tracker::{LocationTracker, SLOTS_FROM, slot_place};

/// A constant's number, modulo 2^64.
pub fn number_of(c: i64) -> u64
    ensures value { result ≡ word c }
    ensures fit { IsPlace (Const c) }
{
    c.cast_unsigned()
}

/// The class of a place: a register of x1 to x31, a slot at a multiple of 8, or a constant, and 0 for any other.
pub fn named_class(point: &QueryPoint, place: &Place) -> usize
    ensures fit { IsFit place.now }
    ensures class { result ≡ named_class point.now.index point.now.stand.settled.items point.now.stand.held place.now }
{
    match place {
        Place::Register(r) => register_class(&point.stand.held, *r),
        Place::Slot(n) => slot_class(&point.stand.held, *n),
        Place::Const(c) => number_class(
            &point.index,
            point.stand.settled.as_slice(),
            number_of(*c),
        ),
    }
}

fn register_class(held: &LocationTracker, r: Reg) -> usize
    ensures { result ≡ cond (nat_eq r 0) 0 (cond (nat_lt r 32) (slice_index held.now.places.items r) 0) }
{
    if r.number() == 0 || r.number() as usize >= SLOTS_FROM {
        0
    } else {
        held.register(r)
    }
}

fn slot_class(held: &LocationTracker, n: SlotId) -> usize
    ensures { result ≡ cond (nat_eq (n % 8) 0) (slice_index held.now.places.items (slot_place n)) 0 }
{
    if n.number() % 8 == 0 {
        held.place(slot_place(n))
    } else {
        0
    }
}

/// Whether a place holds the value of this class at a point.
pub fn class_sits(point: &QueryPoint, class: usize, place: &Place) -> bool
    ensures fit { IsFit place.now }
    ensures sits { IsTrue result ↔ SitsByClass point.now.stand point.now.index class place.now }
{
    are_one(point.stand.reached, class, named_class(point, place))
}

/// Whether some path leads there and both classes are the same and not 0.
fn are_one(reached: bool, a: usize, b: usize) -> bool
    ensures { IsTrue result ↔ ((reached ≡ true) × (a ≢ 0) × (a ≡ b)) }
{
    reached && a != 0 && a == b
}
