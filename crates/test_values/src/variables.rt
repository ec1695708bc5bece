//! Parts of variables, and locations by their places.

use crate::text::{part, variable};
use base_ids::function_ids::SlotId;
use dwarf_loclists::range::{Location, Part, Parts};
use location_of_variable::group::groups;
use location_of_variable::laws::wanted_locations_give_parts;
use location_of_variable::location::location;
use rv64_instr::place::Place;
use std::alloc::Global;
use std::test::Fail;

fn is_at(found: &Option<Location>, wanted: &Option<Location>) -> bool {
    match (found, wanted) {
        (None, None) => true,
        (Some(found), Some(wanted)) => found.equals(wanted),
        (None, Some(_)) | (Some(_), None) => false,
    }
}

fn pieces(alloc: Global, pieces: &[Part]) -> Result<Option<Location>, Fail> {
    Ok(Some(Location::Parts(Parts::from_slice(alloc, pieces)?)))
}

/// The location of the variable at an index: of variables 6, 4, 5, 8 and 9. The upper half of variable 4 is marked first,
/// and bytes 2 to 5 of variable 8 overlap its bytes 0 to 3.
fn found(alloc: Global, index: usize) -> Result<Option<Location>, Fail> {
    let parts = [
        part(4, 4, 4),
        variable(6),
        part(4, 0, 4),
        part(8, 2, 4),
        part(8, 0, 4),
        part(9, 0, 8),
    ];
    let places = [
        Some(Place::Const(7)),
        Some(Place::Slot(SlotId(16))),
        Some(Place::Slot(SlotId(8))),
        Some(Place::Const(1)),
        Some(Place::Const(2)),
        None,
    ];
    let variables = [
        variable(6),
        variable(4),
        variable(5),
        variable(8),
        variable(9),
    ];
    let groups = groups(alloc, parts.as_slice(), variables.as_slice())?;
    match groups.get(index) {
        Some(group) => Ok(location(alloc, group, places.as_slice())?),
        None => Err(Fail::from("a group")),
    }
}

/// A part in a place.
fn at(offset: u32, place: Place) -> Part {
    Part {
        offset,
        length: 4,
        place,
    }
}

/// Where that variable is.
fn wanted(alloc: Global, index: usize) -> Result<Option<Location>, Fail> {
    match index {
        0 => Ok(Some(Location::Whole(Place::Slot(SlotId(16))))),
        1 => pieces(
            alloc,
            &[at(0, Place::Slot(SlotId(8))), at(4, Place::Const(7))],
        ),
        3 => pieces(alloc, &[at(0, Place::Const(2))]),
        _ => Ok(None),
    }
}

/// Whether that variable is found there.
fn is_found(alloc: Global, index: usize) -> Result<bool, Fail> {
    let wanted = wanted(alloc, index)?;
    let found = found(alloc, index)?;
    Ok(is_at(&found, &wanted))
}

/// The index of the first variable that is found elsewhere.
fn other_variable(alloc: Global) -> Result<Option<usize>, Fail> {
    for index in 0..5 {
        if !is_found(alloc, index)? {
            return Ok(Some(index));
        }
    }
    Ok(None)
}

#[test]
fn variables_are_found(rt: HostRuntime) -> Result<(), Fail> {
    wanted_locations_give_parts();
    assert_eq!(rt; other_variable(rt.alloc())?, None);
    Ok(())
}
