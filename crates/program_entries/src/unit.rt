//! The unit of a program, by its debug metadata.

ghost use Rattle.std.specs.Prelude.{◌≡◌, IfOk};
ghost use Rattle.program_entries.specs.Functions;

use crate::functions::typed_functions;
use dwarf_info::unit::Unit;
use dwarf_line_table::file::SourceFile;
use dwarf_line_table::source_and_code::SourceAndCode;
use read_debug_nodes::metadata::DebugMetadata;
use read_metadata::metadata::Metadata;
use read_types::indices::TypeNodes;
use std::alloc::{AllocError, Global};
use typed_unit::content::{Subprograms, TypedUnit};

/// What the entries of a unit tell but for its types, which these nodes are: of functions in text order, whose entries
/// by their names are the unit's. The unit's file is this one. The error is out of memory.
pub fn typed_unit(
    alloc: Global,
    debug: &DebugMetadata,
    types: &TypeNodes,
    meta: &Metadata,
    file: &SourceFile,
    functions: &[SourceAndCode],
    unit: &Unit,
    frame_base: bool,
) -> Result<TypedUnit, AllocError>
    ensures { IfOk result (λ made. made
        ≡ Functions.typed_unit debug.now types.now meta.now file.now functions.now unit.now frame_base) }
{
    let name = file.name.copy()?;
    let dir = file.dir.copy()?;
    let entries = unit.functions.as_slice();
    let functions = typed_functions(alloc, debug, types, meta, file, functions, entries)?;
    Ok(TypedUnit {
        language: debug.language(),
        name,
        dir,
        text_len: unit.text_len,
        abstracts: Subprograms::new(alloc),
        functions,
        frame_base,
        ranges: true,
    })
}
