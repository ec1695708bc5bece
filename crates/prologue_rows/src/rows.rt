//! The rows of a function.

ghost use Rattle.std.specs.Prelude.{◌≡◌, ◌+◌, ◌-◌, ◌<◌, ◌≤◌, ◌^◌, ◌++◌, List, length, map, None, OnOk, IfOk};
ghost use Rattle.dwarf_line_table.specs.declared.file.SourceFile.{SourceFile};
ghost use Rattle.dwarf_line_table.specs.Files.{first_uses, is_file, with_new};
ghost use Rattle.dwarf_line_table.specs.Table.{is_place, is_place_before, changes};
ghost use Rattle.prologue_rows.specs.Rows.{line_file, row_of, first_and_changes};

use crate::file::scope_number;
use crate::words::SourceWord;
use dwarf_line::table::{Row, RowList};
use dwarf_line_table::file::{Files, SourceFile};
use read_metadata::metadata::Metadata;
use std::alloc::{AllocError, Global};

/// A row for each source position. New files are appended. The error is out of memory.
pub fn rows_of(
    alloc: Global,
    files: &mut Files,
    meta: &Metadata,
    unit: &SourceFile,
    lines: &[SourceWord],
) -> Result<RowList, AllocError>
    requires { length files.old + length lines.now < 2 ^ 32 - 2 }
    ensures known { OnOk result
        (files.new ≡ first_uses is_file files.old (map (line_file meta.now unit.now) lines.now)) }
    // Whatever files join later.
    ensures rows { (more : List SourceFile) → IfOk result (λ rows. rows
        ≡ map (row_of (files.new ++ more) meta.now unit.now) lines.now) }
    ensures few { OnOk result (length files.new ≤ length files.old + length lines.now) }
{
    let mut rows = RowList::new(alloc);
    for line in lines {
        rows.push(row(alloc, files, meta, unit, line)?)?;
    }
    Ok(rows)
}

/// The row of a source position.
fn row(
    alloc: Global,
    files: &mut Files,
    meta: &Metadata,
    unit: &SourceFile,
    line: &SourceWord,
) -> Result<Row, AllocError>
    requires { length files.old < 2 ^ 32 - 2 }
    ensures known { OnOk result (files.new ≡ with_new is_file files.old (line_file meta.now unit.now line.now)) }
    ensures row { (more : List SourceFile) → IfOk result (λ row. row
        ≡ row_of (files.new ++ more) meta.now unit.now line.now) }
    ensures few { OnOk result (length files.new ≤ length files.old + 1) }
{
    let file = scope_number(alloc, files, meta, unit, line.scope)?;
    Ok(Row {
        address: line.address,
        file,
        line: line.line,
        column: line.column,
    })
}

/// The first row, and the others at which the source position changes, of which the first one is always there. The
/// error is out of memory.
pub fn first_and_changes(alloc: Global, rows: &[Row]) -> Result<RowList, AllocError>
    ensures { IfOk result (λ kept. kept ≡ first_and_changes rows.now) }
{
    let mut kept = RowList::new(alloc);
    match rows {
        [] => Ok(kept),
        [first, rest @ ..] => {
            kept.push(*first)?;
            push_changes(&mut kept, rest)?;
            Ok(kept)
        }
    }
}

/// Appends the rows at which the source position changes, and the first one.
fn push_changes(kept: &mut RowList, rows: &[Row]) -> Result<(), AllocError>
    ensures { OnOk result (kept.new ≡ kept.old ++ changes None rows.now) }
{
    let mut before = None;
    for row in rows {
        if !is_place_before(&before, row) {
            kept.push(*row)?;
            before = Some(*row);
        }
    }
    Ok(())
}

/// Whether a row has the source position of the row before it.
fn is_place_before(before: &Option<Row>, row: &Row) -> bool
    ensures { result ≡ is_place_before before.now row.now }
{
    match before {
        None => false,
        Some(before) => is_place(before, row),
    }
}

/// Whether two rows have the same source position.
fn is_place(a: &Row, b: &Row) -> bool
    ensures { result ≡ is_place a.now b.now }
{
    a.file == b.file && (a.line == b.line && a.column == b.column)
}
