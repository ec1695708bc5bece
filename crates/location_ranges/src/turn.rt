//! A change of all tracks at an address.

ghost use Rattle.std.specs.Prelude.{◌≡◌, ℕ, false, Some, OnOk, length, slice_index_or};
ghost use Rattle.std.specs.List.{list_any};
ghost use Rattle.location_of_variable.specs.VariableLocation.{IsLocationFor};
ghost use Rattle.location_ranges.specs.Covered.{located};
ghost use Rattle.location_ranges.specs.steps.Saying.{TurnsBy, TurnedBelow, StandStill, is_flagged, has_changed};

use crate::track::Track;
use location_of_variable::group::{Group, Piece};
use location_of_variable::location::location;
use rv64_instr::place::Place;
use std::alloc::{AllocError, Global};

/// Changes each variable's track at an address to its location by the places of its parts. Where not all of them are to
/// turn, `changed` flags the parts of which the place is another one than at the last address, `any` says whether there
/// is one, and the other variables' tracks are not looked at. The error is out of memory.
pub fn turn_all(
    alloc: Global,
    groups: &[Group],
    places: &[Option<Place>],
    changed: &[bool],
    any: bool,
    all: bool,
    tracks: &mut Vec<Track>,
    address: u64,
) -> Result<(), AllocError>
    requires tracks { length tracks.old.items ≡ length groups.now }
    requires still { all ≡ false → StandStill groups.now places.now changed.now tracks.old.items }
    requires quiet { any ≡ false → (j : ℕ) → slice_index_or changed.now j false ≡ false }
    ensures { OnOk result
        (TurnedBelow groups.now places.now address tracks.old.items (length groups.now) tracks.new.items) }
{
    if all || any {
        turn_each(alloc, groups, places, changed, all, tracks, address)
    } else {
        Ok(())
    }
}

/// Changes the tracks of variables with a flag, or all.
fn turn_each(
    alloc: Global,
    groups: &[Group],
    places: &[Option<Place>],
    changed: &[bool],
    all: bool,
    tracks: &mut Vec<Track>,
    address: u64,
) -> Result<(), AllocError>
    requires tracks { length tracks.old.items ≡ length groups.now }
    requires still { all ≡ false → StandStill groups.now places.now changed.now tracks.old.items }
    ensures { OnOk result
        (TurnedBelow groups.now places.now address tracks.old.items (length groups.now) tracks.new.items) }
{
    for k in 0..groups.len() {
        turn_if(
            alloc,
            &groups[k],
            places,
            changed,
            all,
            &mut tracks[k],
            address,
        )?;
    }
    Ok(())
}

/// Changes the track of a variable that has a flag, or any one.
#[tactic(auto, using(crate::proofs::Still::turns_not))]
fn turn_if(
    alloc: Global,
    group: &Group,
    places: &[Option<Place>],
    changed: &[bool],
    all: bool,
    track: &mut Track,
    address: u64,
) -> Result<(), AllocError>
    requires { all ≡ false → has_changed changed.now group.now ≡ false
        → IsLocationFor group.now places.now (located track.old.present) }
    ensures { OnOk result (TurnsBy group.now places.now address track.old track.new) }
{
    if all || has_changed(changed, group) {
        turn(alloc, group, places, track, address)
    } else {
        Ok(())
    }
}

/// Whether some part of the group has a flag.
fn has_changed(changed: &[bool], group: &Group) -> bool
    ensures { result ≡ has_changed changed.now group.now }
{
    is_flagged(changed, group.whole) || some_flagged(changed, group.pieces.as_slice())
}

/// Whether some one of these parts has a flag.
fn some_flagged(changed: &[bool], pieces: &[Piece]) -> bool
    ensures { result ≡ list_any (λ x. is_flagged changed.now (Some x.index)) pieces.now }
{
    pieces
        .iter()
        .any(|piece| is_flagged(changed, Some(piece.index)))
}

/// Whether the part at an index, if there is one, has a flag.
fn is_flagged(changed: &[bool], index: Option<usize>) -> bool
    ensures { result ≡ is_flagged changed.now index }
{
    match index {
        Some(j) => flag_at(changed, j),
        None => false,
    }
}

/// The flag at an index; false if there is none.
fn flag_at(changed: &[bool], j: usize) -> bool
    ensures { result ≡ slice_index_or changed.now j false }
{
    match changed.get(j) {
        Some(set) => *set,
        None => false,
    }
}

fn turn(
    alloc: Global,
    group: &Group,
    places: &[Option<Place>],
    track: &mut Track,
    address: u64,
) -> Result<(), AllocError>
    ensures { OnOk result (TurnsBy group.now places.now address track.old track.new) }
{
    let location = location(alloc, group, places)?;
    track.turn_to(alloc, address, location)?;
    Ok(())
}
