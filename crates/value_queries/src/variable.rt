//! The location of a part of a variable.

ghost use Rattle.std.specs.Prelude.{◌≡◌, ◌≢◌, ◌↔◌, ◌<◌, ◌≤◌, ℕ, IfOk, IsTrue, List, Some};
ghost use Rattle.std.specs.Prelude.{Contains, length, slice_get, slice_index};
ghost use Rattle.mir_func.specs.declared.block.Block.{Block};
ghost use Rattle.mir_func.specs.declared.position.Pos.{Pos};
ghost use Rattle.mir_func.specs.Graph.{Program, block_start};
ghost use Rattle.mir_func.specs.Successors.{pos_in};
ghost use Rattle.sem_mir.specs.ValueId.{variable_token};
ghost use Rattle.value_tracker.specs.Things.{AreThings};
ghost use Rattle.location_ranges.specs.Stands.{AreValuesOf, Fits, program};
ghost use Rattle.location_ranges.specs.steps.Places.{ArePlacesAt};
ghost use Rattle.location_of_variable.specs.VariableLocation.{AreWantedPlaces, IsWantedPlace};
ghost use Rattle.value_queries.specs.Sitting.{IsPointOf, SitsAt, position};

use crate::point::QueryPoint;
use crate::sits::class_sits;
use crate::stand::{index_in, stand_before};
use location_ranges::places::look_up;
use location_ranges::transfer_tracker::TransferTracker;
use location_ranges::values::Values;
use mir_func::block::Block;
use mir_func::variable::VarId;
use rv64_instr::place::Place;
use std::alloc::{AllocError, Global};
use value_tracker::index::index_of;
use value_tracker::location_tracker::LocationTracker;
use value_tracker::part_list::PartList;

/// The first place that holds the value of a part of a variable on every path to an item of a block, or after its last
/// one: a constant, else the lowest register, else the lowest slot. None if and only if no place holds it. By a walk
/// from the start of the block. The error is out of memory.
pub fn first_place(
    alloc: Global,
    values: &Values,
    blocks: &[Block],
    part: &VarId,
    block: usize,
    item: usize,
) -> Result<Option<Place>, AllocError>
    requires things { AreThings values.now.variables.now values.now.things.now }
    requires parts { length values.now.variables.now ≤ length values.now.things.now }
    requires entries { length values.now.entries.now ≡ length blocks.now }
    requires block { block < length blocks.now }
    requires item { (b : Block) → slice_get blocks.now block ≡ Some b → item ≤ length b.items }
    ensures wanted { IfOk result (λ place. AreValuesOf blocks.now values.now →
        IsWantedPlace (program blocks.now values.now.subs.now) (block_start 0) part.now (pos_in block item) place) }
{
    let index = index_of(alloc, values.things)?;
    let stand = stand_before(alloc, values, &index, blocks, block, item)?;
    let places = places_at(alloc, values, &stand)?;
    Ok(place_of(values.variables, places.as_slice(), part))
}

/// The places of all parts before the item.
fn places_at(
    alloc: Global,
    values: &Values,
    stand: &TransferTracker,
) -> Result<Vec<Option<Place>>, AllocError>
    requires { Fits stand.now values.now }
    ensures count { IfOk result (λ places. length places.items ≡ length values.now.variables.now) }
    ensures places { IfOk result (λ places. ArePlacesAt stand.now places.items) }
{
    let mut firsts = Vec::new(alloc);
    let mut places = vec![in alloc; None; values.variables.len()]?;
    let mut changed = vec![in alloc; false; values.variables.len()]?;
    look_up(stand, &mut firsts, &mut places, &mut changed)?;
    Ok(places)
}

/// The place of a part among those of all parts, and None for a part without debug values.
fn place_of(parts: &PartList, places: &[Option<Place>], part: &VarId) -> Option<Place>
    requires { length parts.now ≡ length places.now }
    ensures { (g : Program) (start : Pos) (p : Pos) → AreWantedPlaces g start p parts.now places.now →
        IsWantedPlace g start part.now p result }
{
    match index_in(parts, part) {
        None => None,
        Some(j) => places[j],
    }
}

/// Whether a place holds the value of a part of a variable at a point: some path leads there, and on every path to it
/// both have the same token.
pub fn holds(values: &Values, point: &QueryPoint, part: &VarId, place: &Place) -> bool
    ensures { (blocks : List Block) → AreValuesOf blocks values.now → IsPointOf blocks values.now point.now →
        IsTrue result ↔ SitsAt (program blocks values.now.subs.now) (variable_token part.now) place.now
        (position point.now) }
{
    class_sits(
        point,
        part_class(&point.stand.held, values.variables, part),
        place,
    )
}

/// The class of a part of a variable, and 0 for a part without debug values.
fn part_class(held: &LocationTracker, parts: &PartList, part: &VarId) -> usize
    ensures held { Contains parts.now part.now → (j : ℕ) × (slice_get parts.now j ≡ Some part.now)
        × (result ≡ slice_index held.now.parts.items j) }
    ensures none { result ≢ 0 → Contains parts.now part.now }
{
    match index_in(parts, part) {
        None => 0,
        Some(j) => part_at(held, j),
    }
}

/// The class of the part at an index.
fn part_at(held: &LocationTracker, j: usize) -> usize
    ensures { result ≡ slice_index held.now.parts.items j }
{
    if j < held.parts.len() {
        held.parts[j]
    } else {
        0
    }
}
