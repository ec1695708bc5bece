//! The sizes of the variables that have location lists.

ghost use Rattle.std.specs.Prelude.{◌≡◌, ◌-◌, ◌<◌, ◌^◌, IfOk, length};
ghost use Rattle.dwarf_sections.specs.dwarf_unit.Unit.{program_variables};
ghost use Rattle.linkable_program.specs.Program.{AreSizesOf};

use dwarf_sections::dwarf_line_table_crate::source_and_code::SourceAndCode;
use program_entries::program::program_unit;
use read_debug_nodes::metadata::DebugMetadata;
use read_metadata::metadata::Metadata;
use std::alloc::{AllocError, Global};
use variable_sizes::sizes::list_sizes;

/// The sizes in bytes of the variables of functions, by the numbers of their location lists, of which there are so many.
/// The functions have `text_len` bytes of code. The error is out of memory.
pub fn sizes(
    alloc: Global,
    debug: &DebugMetadata,
    functions: &[SourceAndCode],
    meta: &Metadata,
    text_len: u32,
    with_frame: bool,
    count: usize,
) -> Result<Vec<u64>, AllocError>
    requires { length (program_variables functions.now) < 2 ^ 32 - 2 }
    ensures { IfOk result (λ sizes. AreSizesOf debug.now meta.now text_len with_frame functions.now count sizes.items) }
{
    let unit = program_unit(alloc, debug, meta, functions, text_len, with_frame)?;
    let sizes = list_sizes(alloc, unit.types, &unit.content, count)?;
    Ok(sizes)
}
