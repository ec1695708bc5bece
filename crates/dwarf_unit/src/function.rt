//! The entries of functions.

ghost use Rattle.std.specs.Prelude.{◌≡◌, ◌+◌, ◌-◌, ◌<◌, ◌≤◌, ◌^◌, ◌++◌, length, List, ℕ, nat_eq, OnOk, IfOk};
ghost use Rattle.std.specs.List.{flat_map};
ghost use Rattle.dwarf_line_table.specs.Files.{first_uses};
ghost use Rattle.dwarf_unit.specs.Unit.{function_variables, function_entry, type_uses};

use crate::types::Types;
use crate::variable::variables_from;
use crate::variables::variables;
use dwarf_info::unit::FunctionEntry;
use dwarf_line_table::source_and_code::SourceAndCode;
use read_metadata::metadata::Metadata;
use std::alloc::{AllocError, Global};

/// The entry of a function, with its variables' location lists numbered from this index on. The error is out of memory.
pub fn function_entry(
    alloc: Global,
    types: &mut Types,
    meta: &Metadata,
    first: u32,
    function: &SourceAndCode,
) -> Result<FunctionEntry, AllocError>
    requires room { length types.old + length (function_variables function.now) < 2 ^ 32 - 2 }
    requires lists { first + length (function_variables function.now) < 2 ^ 32 }
    ensures known { OnOk result
        (types.new ≡ first_uses nat_eq types.old (flat_map (type_uses meta.now) (function_variables function.now))) }
    // Whatever types join later.
    ensures entry { (more : List ℕ) →
        IfOk result (λ e. e ≡ function_entry meta.now (types.new ++ more) first function.now) }
    ensures few { OnOk result (length types.new ≤ length types.old + length (function_variables function.now)) }
{
    let source = function.source;
    let code = function.code;
    let variables = variables(alloc, source.blocks.as_slice())?;
    let entries = variables_from(alloc, types, meta, first, variables.as_slice())?;
    Ok(FunctionEntry {
        name: source.name.copy()?,
        lo: code.base,
        len: 4 * code.words.len() as u32,
        variables: entries,
    })
}
