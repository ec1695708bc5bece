//! Whether a place holds the value of an operand, or that of another place.

ghost use Rattle.std.specs.Prelude.{◌≡◌, ◌↔◌, ◌≤◌, ◌*◌, ◌^◌, ◌-◌, ℕ, IfNone, IfSome, IsSome, IsTrue, List};
ghost use Rattle.std.specs.Prelude.{Some, is_some, true, Contains, length, min, slice_get, sum_by};
ghost use Rattle.std.specs.HashMap.{get};
ghost use Rattle.mir_func.specs.declared.block.Block.{Block};
ghost use Rattle.mir_func.specs.Graph.{Program};
ghost use Rattle.mir_substitution.specs.Index.{is_key};
ghost use Rattle.sem_mir.specs.ValueId.{pair_token, place_token};
ghost use Rattle.sem_mir.specs.PreferredLocation.{IsPlace};
ghost use Rattle.value_solver.specs.declared.entry.BlockEntry.{BlockEntry};
ghost use Rattle.value_solver.specs.declared.tracked.Tracked.{Tracked};
ghost use Rattle.value_solver.specs.declared.tracked.Tracked.TheVariants.{Pair};
ghost use Rattle.value_solver.specs.Entry.{IsEntry};
ghost use Rattle.value_tracker.specs.LocationTracker.{pair_class};
ghost use Rattle.location_ranges.specs.Stands.{AreValuesOf, program};
ghost use Rattle.value_queries.specs.Sitting.{IsFit, IsPointOf, SitsAt, SitsByClass, position, named_class};
ghost use Rattle.value_queries.specs.Sitting.{place_number};

use crate::point::QueryPoint;
use crate::sits::{class_sits, named_class, number_of};
use location_ranges::values::Values;
use mir_func::debug_substitution::OperandPair;
use rv64_instr::place::Place;
use value_solver::entry::BlockEntry;
use value_tracker::index::{key, pair_class};

/// Whether a place holds, at a point, the value of an operand of the instruction with a debug instruction number: some
/// path leads there, and on every path to it both have the same token. None if and only if the pair isn't tracked.
/// Tracked are the pairs that debug values refer to, and those passed to `value_live_ins::values::solve_asking`.
pub fn holds(values: &Values, point: &QueryPoint, pair: &OperandPair, place: &Place) -> Option<bool>
    ensures tracked { (blocks : List Block) → IsPointOf blocks values.now point.now →
        IsSome result ↔ Contains values.now.things.now (Pair pair.now) }
    ensures exact { IfSome result (λ h. (blocks : List Block) → AreValuesOf blocks values.now →
        IsPointOf blocks values.now point.now →
        IsTrue h ↔ SitsAt (program blocks values.now.subs.now) (pair_token (Some pair.now)) place.now
        (position point.now)) }
{
    let tracked = is_tracked(point, pair);
    if !tracked {
        return None;
    }
    Some(class_sits(point, class_of(point, pair), place))
}

fn is_tracked(point: &QueryPoint, pair: &OperandPair) -> bool
    ensures { result ≡ is_some (get is_key point.now.index.pairs (pair.now.number, pair.now.operand)) }
{
    let (number, operand) = key(*pair);
    point.index.pairs.get(&(number, operand)).copied().is_some()
}

/// The class of a pair at a point.
fn class_of(point: &QueryPoint, pair: &OperandPair) -> usize
    ensures { result ≡ pair_class point.now.index point.now.stand.settled.items point.now.stand.held pair.now.number
        pair.now.operand }
{
    let (number, operand) = key(*pair);
    match point.stand.held.pairs.get(&(number, operand)) {
        Some(class) => *class,
        None => pair_class(
            &point.index,
            point.stand.settled.as_slice(),
            number,
            operand,
        ),
    }
}

/// Whether two places that a list may name hold the same value at a point: some path leads there, and on every path
/// to it both have the same token.
pub fn same(values: &Values, point: &QueryPoint, a: &Place, b: &Place) -> bool
    ensures { (blocks : List Block) → AreValuesOf blocks values.now → IsPointOf blocks values.now point.now →
        IsTrue result ↔ (IsPlace a.now × SitsAt (program blocks values.now.subs.now) (place_token (Some a.now)) b.now
        (position point.now)) }
{
    match number_in(a) {
        None => class_sits(point, named_class(point, a), b),
        Some(m) => number_sits(point, m, a, b),
    }
}

/// Whether the constant place a, with number m, and the place b hold the same value at a reached point.
fn number_sits(point: &QueryPoint, m: u64, a: &Place, b: &Place) -> bool
    ensures fit { IsFit b.now }
    ensures number { IfSome (place_number b.now) (λ n. IsTrue result ↔ ((point.now.stand.reached ≡ true) × (m ≡ n))) }
    ensures place { IfNone (place_number b.now) (IsTrue result ↔ SitsByClass point.now.stand point.now.index
        (named_class point.now.index point.now.stand.settled.items point.now.stand.held b.now) a.now) }
{
    match number_in(b) {
        None => class_sits(point, named_class(point, b), a),
        Some(n) => point.stand.reached && m == n,
    }
}

/// The number of a constant, modulo 2^64.
fn number_in(place: &Place) -> Option<u64>
    ensures fit { IsFit place.now }
    ensures value { result ≡ place_number place.now }
{
    match place {
        Place::Const(c) => Some(number_of(*c)),
        Place::Register(_) => None,
        Place::Slot(_) => None,
    }
}

/// How many class numbers are stored: the sum of the lengths of the entries' lists, or 2^64 - 1 if the sum is above it.
pub fn kept(entries: &[BlockEntry]) -> u64
    ensures sum { result ≡ min (sum_by (λ e. length e.classes) entries.now) (2 ^ 64 - 1) }
    ensures most { (g : Program) (things : List Tracked) →
        ((b : ℕ) (e : BlockEntry) → slice_get entries.now b ≡ Some e → IsEntry g things b e) →
        result ≤ length entries.now * length things }
{
    total(entries)
}

fn total(entries: &[BlockEntry]) -> u64
    ensures { result ≡ min (sum_by (λ e. length e.classes) entries.now) (2 ^ 64 - 1) }
{
    let mut total = 0u64;
    for entry in entries {
        total = total.saturating_add(entry.classes.len() as u64);
    }
    total
}
