//! The rows of a function.

ghost use Rattle.std.specs.Prelude.{◌≡◌, ◌+◌, ◌-◌, ◌<◌, ◌≤◌, ◌^◌, ◌++◌, List, length, None, OnOk, IfOk};
ghost use Rattle.std.specs.Option.{option_copied, option_and_then};
ghost use Rattle.read_metadata.specs.Metadata.{file_of_scope_at};
ghost use Rattle.mir_func.specs.declared.block.Block.{Block};
ghost use Rattle.dwarf_line_table.specs.declared.file.SourceFile.{SourceFile};
ghost use Rattle.dwarf_line_table.specs.Files.{number_in, with_new, first_uses, is_file, unit_in};
ghost use Rattle.dwarf_line_table.specs.SourcePosition.{scope_file, line_at};
ghost use Rattle.dwarf_line_table.specs.Table.{row_of_line, is_place, is_place_before, changes, uses_in, rows_in};
ghost use Rattle.dwarf_line_table.specs.steps.DebugLocations.{AreDebugLocations};

use crate::debug_locations::DebugLocations;
use crate::file::Files;
use crate::scope_line::scope_line;
use base_ids::metadata::NodeId;
use dwarf_info::entry::text_of;
use dwarf_line::table::{Row, RowList};
use emit_code::code::EncodedInstruction;
use mir_func::location::Loc;
use read_metadata::metadata::Metadata;
use read_metadata::node::FileNode;
use std::alloc::{AllocError, Global};

/// The file of a scope.
fn readable_file(meta: &Metadata, scope: Option<NodeId>) -> Option<&FileNode>
    ensures { option_copied result ≡ option_and_then (file_of_scope_at meta.now) scope }
{
    meta.file_of_scope(scope?)
}

/// The number of the file of a scope, or of the unit's file if that isn't readable.
pub fn file_number(
    alloc: Global,
    files: &mut Files,
    meta: &Metadata,
    scope: Option<NodeId>,
) -> Result<u32, AllocError>
    requires unit { 0 < length files.old }
    requires room { length files.old < 2 ^ 32 - 2 }
    ensures known { OnOk result
        (files.new ≡ with_new is_file files.old (scope_file meta.now (unit_in files.old) scope)) }
    ensures number { (more : List SourceFile) →
        IfOk result (λ n. n ≡ number_in (files.new ++ more) (scope_file meta.now (unit_in files.old) scope)) }
    ensures few { OnOk result (length files.new ≤ length files.old + 1) }
{
    match readable_file(meta, scope) {
        Some(file) => files.number(
            alloc,
            text_of(file.name.as_slice()),
            text_of(file.dir.as_slice()),
        ),
        None => Ok(1),
    }
}

/// The row of a debug location at an address.
fn row(
    alloc: Global,
    files: &mut Files,
    meta: &Metadata,
    loc: &Loc,
    address: u64,
) -> Result<Row, AllocError>
    requires unit { 0 < length files.old }
    requires room { length files.old < 2 ^ 32 - 2 }
    ensures known { OnOk result
        (files.new ≡ with_new is_file files.old (line_at meta.now (unit_in files.old) loc.now).file) }
    ensures row { (more : List SourceFile) →
        IfOk result (λ row. row ≡ row_of_line (files.new ++ more) address
        (line_at meta.now (unit_in files.old) loc.now)) }
    ensures few { OnOk result (length files.new ≤ length files.old + 1) }
{
    let said = scope_line(meta, loc);
    let file = file_number(alloc, files, meta, said.scope)?;
    Ok(Row {
        address,
        file,
        line: said.line,
        column: said.column,
    })
}

/// Whether two rows have the same source position.
fn is_place(a: &Row, b: &Row) -> bool
    ensures { result ≡ is_place a.now b.now }
{
    a.file == b.file && (a.line == b.line && a.column == b.column)
}

/// Whether a row has the source position of the row before it.
fn is_place_before(before: &Option<Row>, row: &Row) -> bool
    ensures { result ≡ is_place_before before.now row.now }
{
    match before {
        None => false,
        Some(before) => is_place(before, row),
    }
}

/// The rows of entries: one at the first entry, and one at each change of the source position.
pub fn rows(
    alloc: Global,
    files: &mut Files,
    meta: &Metadata,
    places: &DebugLocations,
    entries: &[EncodedInstruction],
) -> Result<RowList, AllocError>
    requires unit { 0 < length files.old }
    requires room { length files.old + length entries.now < 2 ^ 32 - 2 }
    ensures known { (blocks : List Block) → AreDebugLocations blocks places.now → OnOk result
        (files.new ≡ first_uses is_file files.old (uses_in meta.now (unit_in files.old) blocks entries.now)) }
    // Whatever files join later.
    ensures rows { (blocks : List Block) (more : List SourceFile) → AreDebugLocations blocks places.now →
        IfOk result (λ rows. rows ≡ changes None
        (rows_in (files.new ++ more) meta.now (unit_in files.old) blocks entries.now)) }
    ensures few { OnOk result (length files.new ≤ length files.old + length entries.now) }
{
    let mut rows = RowList::new(alloc);
    let mut before = None;
    for entry in entries {
        let row = row(
            alloc,
            files,
            meta,
            &places.loc(&entry.origin),
            entry.address,
        )?;
        if !is_place_before(&before, &row) {
            rows.push(row)?;
            before = Some(row);
        }
    }
    Ok(rows)
}
