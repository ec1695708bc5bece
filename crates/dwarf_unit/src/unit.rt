//! The unit of a program.

ghost use Rattle.std.specs.Prelude.{◌≡◌, ◌-◌, ◌<◌, ◌^◌, length, All, IfOk};
ghost use Rattle.dwarf_info.specs.Entries.{HasTypes};
ghost use Rattle.dwarf_unit.specs.Unit.{program_variables, unit_of};

use crate::function::function_entry;
use crate::types::Types;
use dwarf_info::unit::{FunctionEntries, Unit};
use dwarf_line_table::source_and_code::SourceAndCode;
use dwarf_line_table::unit_file::unit_file;
use read_metadata::metadata::Metadata;
use std::alloc::{AllocError, Global};

/// The unit of functions in text order, with the length of all their code in bytes (DWARF 5, section 3.1.1). The error
/// is out of memory.
pub fn make_unit(
    alloc: Global,
    functions: &[SourceAndCode],
    meta: &Metadata,
    text_len: u32,
) -> Result<Unit, AllocError>
    requires { length (program_variables functions.now) < 2 ^ 32 - 2 }
    ensures unit { IfOk result (λ unit. unit ≡ unit_of meta.now text_len functions.now) }
    // The type of each variable is there.
    ensures types { IfOk result (λ unit. All (HasTypes (length unit.types)) unit.functions) }
{
    let file = unit_file(alloc, functions, meta)?;
    let mut types = Types::new(alloc);
    let mut entries = FunctionEntries::new(alloc);
    let mut list = 0;
    for function in functions {
        let entry = function_entry(alloc, &mut types, meta, list, function)?;
        list += entry.variables.len() as u32;
        entries.push(entry)?;
    }
    Ok(Unit {
        name: file.name,
        dir: file.dir,
        text_len,
        types: types.entries(alloc, meta)?,
        functions: entries,
    })
}
