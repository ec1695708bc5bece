//! The lists of all variables, by one walk over the entries of a function's machine code.

ghost use Rattle.std.specs.Prelude.{◌≡◌, ◌<◌, ◌≤◌, ◌+◌, ◌*◌, ◌^◌, ℕ, List, All, IfOk, drop, length};
ghost use Rattle.mir_func.specs.declared.variable.VarId.{VarId};
ghost use Rattle.mir_func.specs.Graph.{block_start, fetch_in};
ghost use Rattle.value_tracker.specs.Things.{AreThings};
ghost use Rattle.emit_code.specs.Laid.{StandFrom};
ghost use Rattle.dwarf_loclists.specs.Ranges.{Ascend};
ghost use Rattle.location_of_variable.specs.Groups.{AreGroupsOf};
ghost use Rattle.location_ranges.specs.Stands.{program, AreValuesOf};
ghost use Rattle.location_ranges.specs.steps.Walk.{Fits, IsPointIn};
ghost use Rattle.kept_ranges.specs.Calls.{passed_at, passed_by, lookup_of, slots_passed};
ghost use Rattle.kept_ranges.specs.Lists.{AreKeptListsOf};
ghost use Rattle.kept_ranges.specs.steps.Walk.{HasTurned, IsPast, HaveTold};

use crate::calls::goes_from;
use crate::places::kept_places;
use dwarf_loclists::range::RangeLists;
use emit_code::code::{Code, EncodedInstruction};
use location_of_variable::group::{Group, groups};
use location_ranges::ranges::{Walk, block_of, blocks_of, close_all, end_of, new_tracks};
use location_ranges::track::Track;
use location_ranges::transfer_tracker::enter;
use location_ranges::turn::turn_all;
use location_ranges::values::Values;
use mir_func::block::Block;
use mir_func::item::ItemKind;
use mir_func::variable::VarId;
use std::alloc::{AllocError, Global};
use value_tracker::index::index_of;

/// The ranges of each variable of a list over the machine code of a function, in the list's order: at each byte of code
/// the location required for the variable there, in the frame that stands there or is suspended there, and none if none
/// is required or no path leads there. The error is out of memory.
pub fn all_kept_ranges(
    alloc: Global,
    values: &Values,
    variables: &[VarId],
    code: &Code,
) -> Result<RangeLists, AllocError>
    requires things { AreThings values.now.variables.now values.now.things.now }
    requires parts { length values.now.variables.now ≤ length values.now.things.now }
    requires blocks { length values.now.entries.now ≡ length code.now.framed.blocks }
    ensures exact { IfOk result (λ lists. AreValuesOf code.now.framed.blocks values.now →
        AreKeptListsOf (program code.now.framed.blocks values.now.subs.now) (block_start 0) code.now.entries
        variables.now lists) }
    ensures ascend { IfOk result (All Ascend) }
{
    let groups = groups(alloc, values.variables.as_slice(), variables)?;
    let tracks = new_tracks(alloc, variables.len())?;
    let tracks = past_entries(
        alloc,
        values,
        blocks_of(code),
        entries_of(code),
        groups.as_slice(),
        tracks,
    )?;
    Ok(close_all(alloc, tracks, end_of(code))?)
}

/// The entries of machine code, contiguous, each with an item, far below 2^64.
fn entries_of(code: &Code) -> &[EncodedInstruction]
    ensures entries { result.now ≡ code.now.entries }
    ensures stand { StandFrom code.now.base code.now.entries (code.now.base + 4 * length code.now.words) }
    ensures points { All (IsPointIn code.now.framed.blocks) code.now.entries }
    ensures low { All (λ e. e.address < 2 ^ 63) code.now.entries }
{
    code.entries.as_slice()
}

/// The tracks past all entries.
fn past_entries(
    alloc: Global,
    values: &Values,
    blocks: &[Block],
    entries: &[EncodedInstruction],
    groups: &[Group],
    tracks: Vec<Track>,
) -> Result<Vec<Track>, AllocError>
    requires things { AreThings values.now.variables.now values.now.things.now }
    requires parts { length values.now.variables.now ≤ length values.now.things.now }
    requires blocks { length values.now.entries.now ≡ length blocks.now }
    requires points { All (IsPointIn blocks.now) entries.now }
    requires low { All (λ e. e.address < 2 ^ 63) entries.now }
    requires tracks { length tracks.items ≡ length groups.now }
    ensures count { IfOk result (λ past. length past.items ≡ length groups.now) }
    ensures told { IfOk result (λ past. (variables : List VarId) (base end : ℕ) → StandFrom base entries.now end →
        AreGroupsOf values.now.variables.now variables groups.now →
        HaveTold blocks.now values.now entries.now variables base base tracks.items →
        HaveTold blocks.now values.now entries.now variables base end past.items) }
{
    if entries.is_empty() {
        return Ok(tracks);
    }
    let index = index_of(alloc, values.things)?;
    let stand = enter(alloc, values, &index, block_of(&entries[0]))?;
    let mut walk = Walk {
        stand,
        firsts: Vec::new(alloc),
        places: vec![in alloc; None; values.variables.len()]?,
        changed: vec![in alloc; false; values.variables.len()]?,
        turned: false,
        seen: None,
        tracks,
    };
    for entry in entries {
        walk = walk.pass(alloc, values, &index, blocks, groups, entry)?;
        walk = past_lookup(alloc, values, blocks, groups, walk, entry)?;
    }
    let Walk {
        stand: _,
        firsts: _,
        places: _,
        changed: _,
        turned: _,
        seen: _,
        tracks,
    } = walk;
    Ok(tracks)
}

/// The walk past the address of an entry from which on it tells of suspended frames, if control goes to a callee from it.
fn past_lookup(
    alloc: Global,
    values: &Values,
    blocks: &[Block],
    groups: &[Group],
    walk: Walk,
    entry: &EncodedInstruction,
) -> Result<Walk, AllocError>
    requires point { IsPointIn blocks.now entry.now }
    requires low { entry.now.address < 2 ^ 63 }
    requires fits { Fits values.now groups.now walk }
    ensures fits { IfOk result (Fits values.now groups.now) }
    ensures past { IfOk result (IsPast values.now groups.now
        (passed_at (fetch_in (drop entry.now.point.block blocks.now) entry.now.point.item)) (lookup_of entry.now) walk) }
{
    let items = blocks[block_of(entry)].items.as_slice();
    match items.get(entry.point.item as usize) {
        None => Ok(walk),
        Some(item) => past_item(alloc, values, groups, walk, &item.kind, entry),
    }
}

/// The same by the item.
fn past_item(
    alloc: Global,
    values: &Values,
    groups: &[Group],
    walk: Walk,
    kind: &ItemKind,
    entry: &EncodedInstruction,
) -> Result<Walk, AllocError>
    requires low { entry.now.address < 2 ^ 63 }
    requires fits { Fits values.now groups.now walk }
    ensures fits { IfOk result (Fits values.now groups.now) }
    ensures past { IfOk result (IsPast values.now groups.now (passed_by kind.now) (lookup_of entry.now) walk) }
{
    if goes_from(kind) {
        turn(alloc, values, groups, walk, kind, lookup_of(entry))
    } else {
        Ok(walk)
    }
}

/// The address from which on an entry tells of suspended frames: in its second word, or at its last byte.
fn lookup_of(entry: &EncodedInstruction) -> u64
    requires { entry.now.address < 2 ^ 63 }
    ensures { result ≡ lookup_of entry.now }
{
    if entry.call {
        entry.address + 4
    } else {
        entry.address + 3
    }
}

/// The walk with its tracks turned at an address to the places that a callee keeps.
fn turn(
    alloc: Global,
    values: &Values,
    groups: &[Group],
    walk: Walk,
    kind: &ItemKind,
    address: u64,
) -> Result<Walk, AllocError>
    requires { Fits values.now groups.now walk }
    ensures fits { IfOk result (Fits values.now groups.now) }
    ensures turned { IfOk result (HasTurned values.now groups.now (slots_passed kind.now) address walk) }
{
    let Walk {
        mut stand,
        mut firsts,
        places,
        changed,
        turned: _,
        seen: _,
        mut tracks,
    } = walk;
    let kept = kept_places(alloc, &mut stand, kind, &mut firsts, places.len())?;
    turn_all(
        alloc,
        groups,
        kept.as_slice(),
        changed.as_slice(),
        true,
        true,
        &mut tracks,
        address,
    )?;
    Ok(Walk {
        stand,
        firsts,
        places,
        changed,
        turned: false,
        seen: None,
        tracks,
    })
}
