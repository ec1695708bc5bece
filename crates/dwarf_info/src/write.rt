//! The writer of a unit's section.

ghost use Rattle.std.specs.Prelude.{◌≡◌, ◌+◌, ◌^◌, ◌<◌, ◌++◌, [], length, All, OnOk, IfOk};
ghost use Rattle.std.specs.List.{flat_map};
ghost use Rattle.dwarf_info.specs.Entries.{header, spelling, HasType, HasTypes};
ghost use Rattle.dwarf_info.specs.steps.Parts.{type_bytes, variable_bytes, function_bytes, in_table, AreOffsets};

use crate::abbreviation::Bytes;
use crate::constants::DW_UT_compile;
use crate::entry::{
    push_base_type, push_compile_unit, push_subprogram, push_u16, push_u32, push_variable,
};
use crate::size::section_len;
use crate::unit::{BaseEntry, FunctionEntry, Unit, VariableEntry};
use base_list::List;
use dwarf_base::constants::{ADDRESS_SIZE, VERSION};
use std::alloc::{AllocError, Global};

/// The bytes of the length field, which it doesn't count.
const LENGTH: usize = 4;

/// The section `.debug_info` of a unit. The error is out of memory.
pub fn write_info(alloc: Global, u: &Unit) -> Result<Bytes, AllocError>
    // The type of each variable is there.
    requires types { All (HasTypes (length u.now.types)) u.now.functions }
    requires size { length (spelling u.now) < 2 ^ 31 }
    ensures { IfOk result (λ bytes. bytes ≡ spelling u.now) }
{
    let size = section_len(u);
    let mut out = Vec::with_capacity(alloc, size)?;
    let mut offsets = Vec::new(alloc);
    push_header(&mut out, (size - LENGTH) as u32)?;
    push_compile_unit(&mut out, u)?;
    push_types(&mut out, &mut offsets, u.types.as_slice())?;
    push_functions(&mut out, &offsets, u.functions.as_slice())?;
    out.push(0)?;
    Ok(List::from(out))
}

/// Appends the unit's header.
pub fn push_header(out: &mut Vec<u8>, length_after: u32) -> Result<(), AllocError>
    ensures { OnOk result (out.new.items ≡ out.old.items ++ header length_after) }
{
    push_u32(out, length_after)?;
    push_u16(out, VERSION)?;
    out.push(DW_UT_compile)?;
    out.push(ADDRESS_SIZE)?;
    push_u32(out, 0)
}

/// Appends the entries of types, and notes the offset of each in a table.
pub fn push_types(
    out: &mut Vec<u8>,
    offsets: &mut Vec<u32>,
    types: &[BaseEntry],
) -> Result<(), AllocError>
    requires room { length out.old.items + length (flat_map type_bytes types.now) < 2 ^ 32 }
    requires empty { offsets.old.items ≡ [] }
    ensures bytes { OnOk result (out.new.items ≡ out.old.items ++ flat_map type_bytes types.now) }
    ensures offsets { OnOk result (AreOffsets (length out.old.items) types.now offsets.new.items) }
{
    for base in types {
        offsets.push(out.len() as u32)?;
        push_base_type(out, base)?;
    }
    Ok(())
}

/// Appends functions, with their variables.
fn push_functions(
    out: &mut Vec<u8>,
    offsets: &[u32],
    functions: &[FunctionEntry],
) -> Result<(), AllocError>
    requires { All (HasTypes (length offsets.now)) functions.now }
    ensures { OnOk result (out.new.items ≡ out.old.items
        ++ flat_map (function_bytes (in_table offsets.now)) functions.now) }
{
    for function in functions {
        push_function(out, offsets, function)?;
    }
    Ok(())
}

/// Appends a function, with its variables.
fn push_function(out: &mut Vec<u8>, offsets: &[u32], f: &FunctionEntry) -> Result<(), AllocError>
    requires { HasTypes (length offsets.now) f.now }
    ensures { OnOk result (out.new.items ≡ out.old.items ++ function_bytes (in_table offsets.now) f.now) }
{
    push_subprogram(out, f)?;
    push_variables(out, offsets, f.variables.as_slice())?;
    out.push(0)?;
    Ok(())
}

/// Appends variables.
pub fn push_variables(
    out: &mut Vec<u8>,
    offsets: &[u32],
    variables: &[VariableEntry],
) -> Result<(), AllocError>
    requires { All (HasType (length offsets.now)) variables.now }
    ensures { OnOk result (out.new.items ≡ out.old.items
        ++ flat_map (variable_bytes (in_table offsets.now)) variables.now) }
{
    for variable in variables {
        push_variable(out, offsets, variable)?;
    }
    Ok(())
}
