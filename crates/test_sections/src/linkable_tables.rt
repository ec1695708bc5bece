//! The tables of two functions, `f` with a frame and `h` behind it, and whether tables can be written.

ghost use Rattle.std.specs.Prelude.{◌<◌, ◌^◌, length, All, IfOk, IfSome, IsTrue};
ghost use Rattle.dwarf_frame.specs.Spelling.{spelling as frame_spelling};
ghost use Rattle.dwarf_frame.specs.Table.{IsDescription};
ghost use Rattle.linkable_command.specs.entry_placement.dwarf_entry.Entries.{RefersWithin};
ghost use Rattle.prologue_lines.specs.Spelling.{spelling as rows_spelling};
ghost use Rattle.dwarf_line.specs.Table.{HasNames, IsSequence};
ghost use Rattle.linkable_command.specs.Linkable.{entry_bytes, LOST};

use crate::entry_tree::{items_refer, tree_of};
use crate::frame_rows::{are_descriptions, are_undefined};
use crate::frames::function;
use crate::line_tables::{dirs_of, files_of};
use crate::table::{are_named, are_names, are_sequences};
use base_list::List;
use dwarf_frame::size::frame_size;
use dwarf_frame::table::FrameDescription;
use dwarf_line::table::{LineTable, Row, Sequence};
use linkable_command::entry_placement_crate::dwarf_entry_crate::tree::TreeItem;
use linkable_command::sections::{LOST_REGISTERS, entry_size};
use linkable_command::tables::{DebugTables, FrameDescriptions};
use prologue_lines::section::line_size;
use std::alloc::{AllocError, Global};

/// The bytes of `.debug_rnglists`, without a list.
pub(crate) static RANGES: [u8; 12] = [8, 0, 0, 0, 5, 0, 8, 0, 0, 0, 0, 0];

/// The rows: one for all code.
fn rows_of(alloc: Global) -> Result<LineTable, AllocError> {
    let mut rows = List::new(alloc);
    rows.push(Row {
        address: 0,
        file: 1,
        line: 3,
        column: 1,
    })?;
    let mut sequences = List::new(alloc);
    sequences.push(Sequence { rows, end: 48 })?;
    Ok(LineTable {
        dirs: dirs_of(alloc, &[b"/d"])?,
        files: files_of(alloc, &[(b"t.c", 0), (b"t.c", 0)])?,
        sequences,
    })
}

/// The call frame information of the functions.
fn frames_of(alloc: Global) -> Result<FrameDescriptions, AllocError> {
    let mut frames = List::new(alloc);
    frames.push(function(alloc)?)?;
    frames.push(FrameDescription {
        start: 44,
        size: 4,
        rows: List::new(alloc),
    })?;
    Ok(frames)
}

/// The tables of the functions.
pub(crate) fn tables_of(alloc: Global) -> Result<DebugTables, AllocError> {
    Ok(DebugTables {
        entries: tree_of(alloc)?,
        rows: rows_of(alloc)?,
        frames: Some(frames_of(alloc)?),
        ranges: List::from_slice(alloc, &RANGES)?,
        linkages: List::new(alloc),
    })
}

/// Whether a tree of entries can be written.
pub(crate) fn are_entries(alloc: Global, entries: &[TreeItem]) -> Result<bool, AllocError>
    ensures references { IfOk result (λ are. IsTrue are → RefersWithin entries.now) }
    ensures size { IfOk result (λ are. IsTrue are → length (entry_bytes entries.now) < 2 ^ 31) }
{
    if entry_size(alloc, entries)?.is_none() {
        return Ok(false);
    }
    Ok(items_refer(entries.len(), entries))
}

/// Whether rows can be written.
pub(crate) fn are_rows(t: &LineTable) -> bool
    ensures names { IsTrue result → HasNames t.now }
    ensures sequences { IsTrue result → All IsSequence t.now.sequences }
    ensures size { IsTrue result → length (rows_spelling t.now) < 2 ^ 31 }
{
    if !are_names(t.dirs.as_slice()) || !are_named(t.files.as_slice()) {
        return false;
    }
    if !are_sequences(t.sequences.as_slice()) || line_size(t).is_none() {
        return false;
    }
    true
}

/// Whether the call frame information of functions can be written.
fn are_functions(functions: &[FrameDescription]) -> bool
    ensures functions { IsTrue result → All IsDescription functions.now }
    ensures size { IsTrue result → length (frame_spelling LOST functions.now) < 2 ^ 31 }
{
    if !are_descriptions(functions) || !are_undefined(&LOST_REGISTERS) {
        return false;
    }
    if frame_size(&LOST_REGISTERS, functions).is_none() {
        return false;
    }
    true
}

/// Whether it can be written, if there is some.
pub(crate) fn are_frames(frames: &Option<FrameDescriptions>) -> bool
    ensures functions { IsTrue result → IfSome frames.now (All IsDescription) }
    ensures size { IsTrue result → IfSome frames.now (λ functions. length (frame_spelling LOST functions) < 2 ^ 31) }
{
    match frames {
        None => true,
        Some(functions) => are_functions(functions.as_slice()),
    }
}
