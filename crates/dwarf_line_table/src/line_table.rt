//! The line number table of a program.

ghost use Rattle.std.specs.Prelude.{◌≡◌, ◌+◌, ◌-◌, ◌<◌, ◌≤◌, ◌^◌, ◌++◌, List, length, map, All, OnOk, IfOk};
ghost use Rattle.dwarf_line.specs.Table.{HasNames, IsSequence};
ghost use Rattle.emit_code.specs.Laid.{StandFrom};
ghost use Rattle.dwarf_line_table.specs.declared.file.SourceFile.{SourceFile};
ghost use Rattle.dwarf_line_table.specs.Files.{first_uses, is_file, number_in, unit_in};
ghost use Rattle.dwarf_line_table.specs.SourcePosition.{scope_file};
ghost use Rattle.dwarf_line_table.specs.Program.{MAX_FUNCTIONS, function_uses, sequences_of, function_end, table_of};
ghost use Rattle.dwarf_line_table.specs.Program.{table_with, scope_number};
ghost use Rattle.emit_code.specs.Counts.{MAX_WORDS};

use crate::debug_locations::DebugLocations;
use crate::entries::Entries;
use crate::file::Files;
use crate::rows::{file_number, rows};
use crate::source_and_code::SourceAndCode;
use crate::unit_file::unit_file;
use base_ids::metadata::NodeId;
use base_list::List;
use dwarf_line::table::{LineTable, Sequence, Sequences};
use read_metadata::metadata::Metadata;
use std::alloc::{AllocError, Global};

/// The numbers of files, in the order of the scopes that they are of.
pub type FileNumbers = List<u32>;

/// A line number table, and the numbers of further files in it.
#[derive(Debug, Drop)]
pub struct NumberedTable {
    /// The table.
    pub table: LineTable,
    /// The number of each further scope's file.
    pub numbers: FileNumbers,
}

/// The line number table of functions in text order (DWARF 5, section 6.2), with a sequence for each that has code.
/// There is a row at a function's first address, and at each entry whose file, line or column differs from that of the
/// entry before. The error is out of memory.
pub fn line_table(
    alloc: Global,
    functions: &[SourceAndCode],
    meta: &Metadata,
) -> Result<LineTable, AllocError>
    requires { length functions.now ≤ MAX_FUNCTIONS }
    ensures table { IfOk result (λ table. table ≡ table_of meta.now functions.now) }
    // The names have no zero byte.
    ensures names { IfOk result HasNames }
    // Each sequence has a row, its addresses don't fall, and its end isn't below the last.
    ensures sequences { IfOk result (λ table. All IsSequence table.sequences) }
{
    Ok(line_table_with(alloc, functions, meta, &[])?.table)
}

/// The line number table of functions with the files of further scopes, which have numbers behind those that the
/// functions' code uses. The error is out of memory.
pub fn line_table_with(
    alloc: Global,
    functions: &[SourceAndCode],
    meta: &Metadata,
    further: &[Option<NodeId>],
) -> Result<NumberedTable, AllocError>
    requires functions { length functions.now ≤ MAX_FUNCTIONS }
    requires further { length further.now < 2 ^ 31 }
    ensures table { IfOk result (λ t. t.table ≡ table_with meta.now functions.now further.now) }
    ensures numbers { IfOk result (λ t. t.numbers ≡ map (scope_number meta.now functions.now further.now) further.now) }
    ensures names { IfOk result (λ t. HasNames t.table) }
    ensures sequences { IfOk result (λ t. All IsSequence t.table.sequences) }
{
    let unit = unit_file(alloc, functions, meta)?;
    let mut files = Files::new(alloc);
    files.number(alloc, unit.name.as_slice(), unit.dir.as_slice())?;
    let mut sequences = Sequences::new(alloc);
    for function in functions {
        push_sequence(alloc, &mut sequences, &mut files, meta, function)?;
    }
    let numbers = further_numbers(alloc, &mut files, meta, further)?;
    let Entries { dirs, files } = files.entries(alloc)?;
    Ok(NumberedTable {
        table: LineTable {
            dirs,
            files,
            sequences,
        },
        numbers,
    })
}

/// The numbers of the files of scopes. New files are appended.
fn further_numbers(
    alloc: Global,
    files: &mut Files,
    meta: &Metadata,
    scopes: &[Option<NodeId>],
) -> Result<FileNumbers, AllocError>
    requires unit { 0 < length files.old }
    requires room { length files.old + length scopes.now < 2 ^ 32 - 2 }
    ensures known { OnOk result
        (files.new ≡ first_uses is_file files.old (map (scope_file meta.now (unit_in files.old)) scopes.now)) }
    // Whatever files join later.
    ensures numbers { (more : List SourceFile) → IfOk result (λ numbers. numbers
        ≡ map (λ scope. number_in (files.new ++ more) (scope_file meta.now (unit_in files.old) scope)) scopes.now) }
    ensures few { OnOk result (length files.new ≤ length files.old + length scopes.now) }
{
    let mut numbers = FileNumbers::new(alloc);
    for scope in scopes {
        numbers.push(file_number(alloc, files, meta, *scope)?)?;
    }
    Ok(numbers)
}

/// Appends the sequence of a function, if it has code.
fn push_sequence(
    alloc: Global,
    sequences: &mut Sequences,
    files: &mut Files,
    meta: &Metadata,
    function: &SourceAndCode,
) -> Result<(), AllocError>
    requires unit { 0 < length files.old }
    requires room { length files.old + MAX_WORDS < 2 ^ 32 - 2 }
    ensures known { OnOk result
        (files.new ≡ first_uses is_file files.old (function_uses meta.now (unit_in files.old) function.now)) }
    // Whatever files join later.
    ensures listed { (more : List SourceFile) → OnOk result (sequences.new
        ≡ sequences.old ++ sequences_of (files.new ++ more) meta.now (unit_in files.old) function.now) }
    ensures few { OnOk result (length files.new ≤ length files.old + MAX_WORDS) }
    ensures stands { OnOk result
        (StandFrom function.now.code.now.base function.now.code.now.entries (function_end function.now)) }
{
    let source = function.source;
    let code = function.code;
    let places = DebugLocations::new(alloc, source.blocks.as_slice())?;
    let rows = rows(alloc, files, meta, &places, code.entries.as_slice())?;
    if !rows.is_empty() {
        let end = code.base + 4 * code.words.len() as u64;
        sequences.push(Sequence { rows, end })?;
    }
    Ok(())
}
