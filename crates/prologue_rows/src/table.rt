//! The line number table of a program.

ghost use Rattle.std.specs.Prelude.{◌≡◌, ◌+◌, ◌-◌, ◌<◌, ◌≤◌, ◌^◌, ◌++◌, List, length, map, drop, All, OnOk, IfOk};
ghost use Rattle.std.specs.List.{flat_map};
ghost use Rattle.dwarf_line.specs.Table.{HasNames, IsSequence};
ghost use Rattle.emit_code.specs.Counts.{MAX_WORDS};
ghost use Rattle.dwarf_line_table.specs.declared.file.SourceFile.{SourceFile};
ghost use Rattle.dwarf_line_table.specs.Files.{first_uses, is_file};
ghost use Rattle.dwarf_line_table.specs.Program.{MAX_FUNCTIONS};
ghost use Rattle.prologue_rows.specs.Files.{table_file, number_of};
ghost use Rattle.prologue_rows.specs.Rows.{line_file};
ghost use Rattle.prologue_rows.specs.Table.{declared_of, lines_of, sequence_of, table_of, numbers_of};

use crate::file::file_number;
use crate::function::LinedFunction;
use crate::lines::lines_of;
use crate::rows::{first_and_changes, rows_of};
use crate::words::words_of;
use dwarf_line::table::{FileEntries, LineTable, Sequence, Sequences};
use dwarf_line_table::entries::Entries;
use dwarf_line_table::file::{Files, SourceFile};
use dwarf_line_table::line_table::{FileNumbers, NumberedTable};
use dwarf_line_table::scope_line::ScopeLine;
use read_metadata::metadata::Metadata;
use std::alloc::{AllocError, Global};

/// The line number table of functions in text order (DWARF 5, section 6.2), with a sequence for each, and the numbers
/// of the files that their entries name. `unit` is the unit's file, which has number 0. In each sequence the first row
/// is at the function's first address, and the second one where its prologue ends. The error is out of memory.
pub fn line_table(
    alloc: Global,
    unit: &SourceFile,
    functions: &[LinedFunction],
    meta: &Metadata,
) -> Result<NumberedTable, AllocError>
    requires functions { length functions.now ≤ MAX_FUNCTIONS }
    requires declared { length (flat_map declared_of functions.now) < 2 ^ 30 }
    ensures table { IfOk result (λ t. t.table ≡ table_of meta.now unit.now functions.now) }
    ensures numbers { IfOk result (λ t. t.numbers ≡ numbers_of meta.now unit.now functions.now) }
    // The names have no zero byte.
    ensures names { IfOk result (λ t. HasNames t.table) }
    // Each sequence has a row, its addresses don't fall, and its end isn't below the last.
    ensures sequences { IfOk result (λ t. All IsSequence t.table.sequences) }
{
    let mut files = Files::new(alloc);
    file_number(alloc, &mut files, unit.name.as_slice(), unit.dir.as_slice())?;
    let mut sequences = Sequences::new(alloc);
    let mut numbers = FileNumbers::new(alloc);
    for function in functions {
        sequences.push(sequence(alloc, &mut files, meta, unit, function)?)?;
        push_numbers(alloc, &mut numbers, &mut files, function.declared)?;
    }
    let Entries { dirs, files } = files.entries(alloc)?;
    Ok(NumberedTable {
        table: LineTable {
            dirs,
            files: behind_first(files),
            sequences,
        },
        numbers,
    })
}

/// The files without the first one.
fn behind_first(files: FileEntries) -> FileEntries
    ensures { result ≡ drop 1 files }
{
    let mut entries = files.into_vec();
    if entries.is_empty() {
        return FileEntries::from(entries);
    }
    drop(entries.remove(0));
    FileEntries::from(entries)
}

/// Appends the numbers of files. New files are appended.
fn push_numbers(
    alloc: Global,
    numbers: &mut FileNumbers,
    files: &mut Files,
    declared: &[SourceFile],
) -> Result<(), AllocError>
    requires { length files.old + length declared.now < 2 ^ 32 - 2 }
    ensures known { OnOk result (files.new ≡ first_uses is_file files.old (map table_file declared.now)) }
    // Whatever files join later.
    ensures numbers { (more : List SourceFile) → OnOk result (numbers.new
        ≡ numbers.old ++ map (λ d. number_of (files.new ++ more) (table_file d)) declared.now) }
    ensures few { OnOk result (length files.new ≤ length files.old + length declared.now) }
{
    for file in declared {
        numbers.push(file_number(alloc, files, file.name.as_slice(), file.dir.as_slice())?)?;
    }
    Ok(())
}

/// The sequence of a function. New files are appended.
fn sequence(
    alloc: Global,
    files: &mut Files,
    meta: &Metadata,
    unit: &SourceFile,
    function: &LinedFunction,
) -> Result<Sequence, AllocError>
    requires { length files.old + MAX_WORDS < 2 ^ 32 - 2 }
    ensures known { OnOk result (files.new
        ≡ first_uses is_file files.old (map (line_file meta.now unit.now) (lines_of meta.now function.now))) }
    // Whatever files join later.
    ensures sequence { (more : List SourceFile) → IfOk result (λ s. s
        ≡ sequence_of (files.new ++ more) meta.now unit.now function.now) }
    ensures is { IfOk result IsSequence }
    ensures few { OnOk result (length files.new ≤ length files.old + MAX_WORDS) }
{
    let source = function.function.source;
    let code = function.function.code;
    let own = ScopeLine {
        line: function.line,
        column: 0,
        scope: meta.subprogram_of(&source.name),
    };
    let words = words_of(alloc, meta, &function.function)?;
    let lines = lines_of(alloc, &own, code.base, words.as_slice())?;
    let all = rows_of(alloc, files, meta, unit, lines.as_slice())?;
    let rows = first_and_changes(alloc, all.as_slice())?;
    let end = code.base + 4 * code.words.len() as u64;
    Ok(Sequence { rows, end })
}
