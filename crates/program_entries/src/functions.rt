//! The entries of functions, by the debug metadata.

ghost use Rattle.std.specs.Prelude.{◌≡◌, IfOk};
ghost use Rattle.std.specs.List.{slice_get};
ghost use Rattle.std.specs.Option.{option_copied};
ghost use Rattle.program_entries.specs.Functions;

use crate::declared::{declared_in, node_of};
use crate::variables::typed_variables;
use dwarf_info::unit::{FunctionEntry, Name};
use dwarf_line_table::file::SourceFile;
use dwarf_line_table::source_and_code::SourceAndCode;
use dwarf_unit::variables::variables;
use read_debug_nodes::metadata::DebugMetadata;
use read_debug_nodes::node::{DebugNode, DebugSubprogram};
use read_metadata::metadata::Metadata;
use read_types::indices::TypeNodes;
use std::alloc::{AllocError, Global};
use typed_unit::content::{Subprogram, TypedFunction, TypedFunctions};
use typed_unit::plain::{plain_function, plain_subprogram};

/// The subprogram of the function with a name.
fn subprogram_of<'a>(
    debug: &'a DebugMetadata,
    meta: &Metadata,
    name: &Name,
) -> Option<&'a DebugSubprogram>
    ensures { option_copied result ≡ Functions.subprogram_of debug.now meta.now name.now }
{
    match node_of(debug, meta.subprogram_of(name))? {
        DebugNode::Subprogram(subprogram) => Some(subprogram),
        _ => None,
    }
}

/// A function as it is declared.
fn typed_subprogram(
    alloc: Global,
    debug: &DebugMetadata,
    types: &TypeNodes,
    meta: &Metadata,
    unit: &SourceFile,
    name: &Name,
) -> Result<Subprogram, AllocError>
    ensures { IfOk result (λ s. s
        ≡ Functions.typed_subprogram debug.now types.now unit.now name.now
        (Functions.subprogram_of debug.now meta.now name.now)) }
{
    match subprogram_of(debug, meta, name) {
        None => plain_subprogram(alloc, name),
        Some(s) => {
            let name = s.name.copy()?;
            let linkage_name = s.linkage_name.copy()?;
            Ok(Subprogram {
                name,
                linkage_name,
                declared: declared_in(unit, debug, s.file, s.line),
                external: !s.local,
                prototyped: s.prototyped,
                signature: types.index_of(s.type_node),
            })
        }
    }
}

/// The function with this index, with its entry.
fn typed_function(
    alloc: Global,
    debug: &DebugMetadata,
    types: &TypeNodes,
    meta: &Metadata,
    unit: &SourceFile,
    entry: &FunctionEntry,
    functions: &[SourceAndCode],
    index: usize,
) -> Result<TypedFunction, AllocError>
    ensures { IfOk result (λ f. f
        ≡ Functions.typed_function debug.now types.now meta.now unit.now entry.now
        (slice_get functions.now index)) }
{
    match functions.get(index) {
        None => plain_function(alloc, entry),
        Some(function) => {
            let source = function.source;
            let variables = variables(alloc, source.blocks.as_slice())?;
            let subprogram = typed_subprogram(alloc, debug, types, meta, unit, &entry.name)?;
            let entries = entry.variables.as_slice();
            let inside = typed_variables(alloc, debug, types, unit, entries, variables.as_slice())?;
            Ok(TypedFunction {
                subprogram,
                lo: entry.lo,
                len: entry.len,
                inside,
            })
        }
    }
}

/// Functions with these entries. The error is out of memory.
pub fn typed_functions(
    alloc: Global,
    debug: &DebugMetadata,
    types: &TypeNodes,
    meta: &Metadata,
    unit: &SourceFile,
    functions: &[SourceAndCode],
    entries: &[FunctionEntry],
) -> Result<TypedFunctions, AllocError>
    ensures { IfOk result (λ made. made
        ≡ Functions.typed_functions debug.now types.now meta.now unit.now functions.now 0 entries.now) }
{
    let mut made = TypedFunctions::new(alloc);
    for (index, entry) in entries.iter().enumerate() {
        let function = typed_function(alloc, debug, types, meta, unit, entry, functions, index)?;
        made.push(function)?;
    }
    Ok(made)
}
