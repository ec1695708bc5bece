//! The lists of all variables, by one walk over the entries of a function's machine code.

ghost use Rattle.std.specs.Prelude.{◌≡◌, ◌<◌, ◌≤◌, ◌+◌, ◌*◌, ℕ, List, None, All, IfOk, length};
ghost use Rattle.mir_func.specs.declared.variable.VarId.{VarId};
ghost use Rattle.mir_func.specs.Graph.{block_start};
ghost use Rattle.value_tracker.specs.Things.{AreThings, Indexes};
ghost use Rattle.emit_code.specs.Laid.{StandFrom};
ghost use Rattle.dwarf_loclists.specs.Ranges.{Ascend};
ghost use Rattle.location_of_variable.specs.Groups.{AreGroupsOf};
ghost use Rattle.location_ranges.specs.Covered.{covered};
ghost use Rattle.location_ranges.specs.Stands.{program, AreValuesOf, Stands};
ghost use Rattle.location_ranges.specs.Lists.{AreListsOf};
ghost use Rattle.location_ranges.specs.steps.Places.{ArePlacesAt};
ghost use Rattle.location_ranges.specs.steps.Saying.{TurnedBelow, IsNew, Closes};
ghost use Rattle.location_ranges.specs.steps.Walk.{IsPointIn, Fits, HaveSaid};

use crate::places::look_up;
use crate::seen::{Seen, rests, see};
use crate::track::Track;
use crate::transfer_tracker::{TransferTracker, enter, is_onward, move_to};
use crate::turn::turn_all;
use crate::values::Values;
use dwarf_loclists::range::{RangeLists, Ranges};
use emit_code::code::{Code, EncodedInstruction};
use location_of_variable::group::{Group, groups};
use mir_func::block::Block;
use mir_func::variable::VarId;
use rv64_instr::place::Place;
use std::alloc::{AllocError, Global};
use std::mem;
use value_tracker::index::{TrackedIndex, index_of};

/// The state of the walk between two entries.
#[derive(Drop)]
pub struct Walk {
    /// The state of the walk over a block's items.
    pub stand: TransferTracker,
    /// A table for first locations, which is empty.
    pub firsts: Vec<Option<usize>>,
    /// The places of the parts of variables at the last lookup.
    pub places: Vec<Option<Place>>,
    /// Which of them that lookup changed.
    pub changed: Vec<bool>,
    /// Whether the tracks have turned at an entry.
    pub turned: bool,
    /// What the last lookup saw, if the next one may be left out.
    pub seen: Option<Seen>,
    /// The track of each variable.
    pub tracks: Vec<Track>,
}

/// The ranges of each variable of a list over the machine code of a function, in the list's order: at each byte of code
/// the location required for the variable there, and none if none is required or no path leads there. The error is out
/// of memory.
pub fn all_ranges(
    alloc: Global,
    values: &Values,
    variables: &[VarId],
    code: &Code,
) -> Result<RangeLists, AllocError>
    requires things { AreThings values.now.variables.now values.now.things.now }
    requires parts { length values.now.variables.now ≤ length values.now.things.now }
    requires blocks { length values.now.entries.now ≡ length code.now.framed.blocks }
    ensures exact { IfOk result (λ lists. AreValuesOf code.now.framed.blocks values.now →
        AreListsOf (program code.now.framed.blocks values.now.subs.now) (block_start 0) code.now.entries
        variables.now lists) }
    ensures ascend { IfOk result (All Ascend) }
{
    let groups = groups(alloc, values.variables.as_slice(), variables)?;
    let tracks = new_tracks(alloc, variables.len())?;
    let tracks = past_entries(
        alloc,
        values,
        blocks_of(code),
        entries_of(code),
        groups.as_slice(),
        tracks,
    )?;
    Ok(close_all(alloc, tracks, end_of(code))?)
}

/// The blocks of the function.
pub fn blocks_of(code: &Code) -> &[Block]
    ensures { result.now ≡ code.now.framed.blocks }
{
    code.framed.blocks.as_slice()
}

/// Its entries, contiguous, each with an item.
fn entries_of(code: &Code) -> &[EncodedInstruction]
    ensures entries { result.now ≡ code.now.entries }
    ensures stand { StandFrom code.now.base code.now.entries (code.now.base + 4 * length code.now.words) }
    ensures points { All (IsPointIn code.now.framed.blocks) code.now.entries }
{
    code.entries.as_slice()
}

/// The address after its last word.
pub fn end_of(code: &Code) -> u64
    ensures { result ≡ code.now.base + 4 * length code.now.words }
{
    code.base + 4 * code.words.len() as u64
}

/// Tracks without ranges, of this count.
pub fn new_tracks(alloc: Global, count: usize) -> Result<Vec<Track>, AllocError>
    ensures count { IfOk result (λ tracks. length tracks.items ≡ count) }
    ensures new { IfOk result (λ tracks. All IsNew tracks.items) }
{
    let mut tracks = Vec::with_capacity(alloc, count)?;
    for _ in 0..count {
        tracks.push(Track::new(alloc))?;
    }
    Ok(tracks)
}

/// The tracks past all entries.
fn past_entries(
    alloc: Global,
    values: &Values,
    blocks: &[Block],
    entries: &[EncodedInstruction],
    groups: &[Group],
    tracks: Vec<Track>,
) -> Result<Vec<Track>, AllocError>
    requires things { AreThings values.now.variables.now values.now.things.now }
    requires parts { length values.now.variables.now ≤ length values.now.things.now }
    requires blocks { length values.now.entries.now ≡ length blocks.now }
    requires points { All (IsPointIn blocks.now) entries.now }
    requires tracks { length tracks.items ≡ length groups.now }
    ensures count { IfOk result (λ past. length past.items ≡ length groups.now) }
    ensures said { IfOk result (λ past. (variables : List VarId) (base end : ℕ) → StandFrom base entries.now end →
        AreGroupsOf values.now.variables.now variables groups.now →
        HaveSaid blocks.now values.now entries.now variables base 0 tracks.items →
        HaveSaid blocks.now values.now entries.now variables base (length entries.now) past.items) }
{
    if entries.is_empty() {
        return Ok(tracks);
    }
    let index = index_of(alloc, values.things)?;
    let stand = enter(alloc, values, &index, block_of(&entries[0]))?;
    let mut walk = Walk {
        stand,
        firsts: Vec::new(alloc),
        places: vec![in alloc; None; values.variables.len()]?,
        changed: vec![in alloc; false; values.variables.len()]?,
        turned: false,
        seen: None,
        tracks,
    };
    for entry in entries {
        walk = walk.pass(alloc, values, &index, blocks, groups, entry)?;
    }
    let Walk {
        stand: _,
        firsts: _,
        places: _,
        changed: _,
        turned: _,
        seen: _,
        tracks,
    } = walk;
    Ok(tracks)
}

/// The index of an entry's block.
pub fn block_of(entry: &EncodedInstruction) -> usize
    ensures { result ≡ entry.now.point.block }
{
    entry.point.block.number() as usize
}

impl Walk {
    /// Steps over an entry: its tracks turn at its address to the locations that are required there. The error is out of memory.
    pub fn pass(
        self,
        alloc: Global,
        values: &Values,
        index: &TrackedIndex,
        blocks: &[Block],
        groups: &[Group],
        entry: &EncodedInstruction,
    ) -> Result<Walk, AllocError>
        requires things { AreThings values.now.variables.now values.now.things.now }
        requires parts { length values.now.variables.now ≤ length values.now.things.now }
        requires blocks { length values.now.entries.now ≡ length blocks.now }
        requires index { Indexes values.now.things.now index.now }
        requires point { IsPointIn blocks.now entry.now }
        requires fits { Fits values.now groups.now self }
        ensures fits { IfOk result (Fits values.now groups.now) }
        ensures stands { IfOk result (λ w. AreValuesOf blocks.now values.now →
            Stands blocks.now values.now index.now self.stand → Stands blocks.now values.now index.now w.stand) }
        ensures block { IfOk result (λ w. w.stand.block ≡ entry.now.point.block) }
        ensures item { IfOk result (λ w. w.stand.item ≡ entry.now.point.item) }
        ensures places { IfOk result (λ w. ArePlacesAt w.stand w.places.items) }
        ensures turned { IfOk result (λ w. TurnedBelow groups.now w.places.items entry.now.address self.tracks.items
            (length groups.now) w.tracks.items) }
    {
        let Walk {
            stand,
            mut firsts,
            mut places,
            mut changed,
            turned,
            seen,
            mut tracks,
        } = self;
        let block = block_of(entry);
        let items = blocks[block].items.as_slice();
        let item = entry.point.item as usize;
        let from = stand.item;
        let same = is_onward(&stand, block, item);
        let stand = move_to(alloc, values, index, stand, block, items, item)?;
        if rests(&seen, &stand, same, from) {
            return Ok(Walk {
                stand,
                firsts,
                places,
                changed,
                turned,
                seen,
                tracks,
            });
        }
        let any = look_up(&stand, &mut firsts, &mut places, &mut changed)?;
        let found = places.as_slice();
        let flags = changed.as_slice();
        turn_all(
            alloc,
            groups,
            found,
            flags,
            any,
            !turned,
            &mut tracks,
            entry.address,
        )?;
        let seen = see(alloc, &stand, seen, same)?;
        Ok(Walk {
            stand,
            firsts,
            places,
            changed,
            turned: true,
            seen,
            tracks,
        })
    }
}

/// The ranges of each track, with the open ones closed at an address.
pub fn close_all(alloc: Global, tracks: Vec<Track>, end: u64) -> Result<RangeLists, AllocError>
    ensures { IfOk result (Closes tracks.items end) }
{
    let mut tracks = tracks;
    let mut lists = RangeLists::new(alloc);
    for k in 0..tracks.len() {
        lists.push(close(alloc, &mut tracks[k], end)?)?;
    }
    Ok(lists)
}

/// Takes a track's ranges, with the open one closed at an address.
fn close(alloc: Global, track: &mut Track, end: u64) -> Result<Ranges, AllocError>
    ensures { IfOk result (λ ranges. ranges ≡ covered track.old end) }
{
    let closed = mem::replace(track, Track::new(alloc));
    closed.close(end)
}
