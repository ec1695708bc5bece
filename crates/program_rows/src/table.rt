//! The line number table of a program.

ghost use Rattle.std.specs.Prelude.{◌≤◌, length, All, IfOk};
ghost use Rattle.dwarf_line.specs.Table.{HasNames, IsSequence};
ghost use Rattle.dwarf_line_table.specs.Program.{MAX_FUNCTIONS};
ghost use Rattle.program_rows.specs.Program.{IsTableOf};

use crate::lined::lined;
use dwarf_line::table::LineTable;
use dwarf_line_table::source_and_code::SourceAndCode;
use dwarf_line_table::unit_file::unit_file;
use prologue_rows::table::line_table;
use read_debug_nodes::metadata::DebugMetadata;
use read_metadata::metadata::Metadata;
use std::alloc::{AllocError, Global};

/// The line number table of functions in text order (DWARF 5, section 6.2), with a sequence for each. In each the first
/// row has the line of the function's body, and the second one is where its prologue ends. The error is out of memory.
pub fn program_table(
    alloc: Global,
    debug: &DebugMetadata,
    meta: &Metadata,
    functions: &[SourceAndCode],
) -> Result<LineTable, AllocError>
    requires { length functions.now ≤ MAX_FUNCTIONS }
    ensures table { IfOk result (IsTableOf debug.now meta.now functions.now) }
    // The names have no zero byte.
    ensures names { IfOk result HasNames }
    // Each sequence has a row, its addresses don't fall, and its end isn't below the last.
    ensures sequences { IfOk result (λ t. All IsSequence t.sequences) }
{
    let unit = unit_file(alloc, functions, meta)?;
    let lined = lined(alloc, debug, meta, functions)?;
    let made = line_table(alloc, &unit, lined.as_slice(), meta)?;
    Ok(made.table)
}
