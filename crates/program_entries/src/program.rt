//! The unit of a program with its types.

ghost use Rattle.std.specs.Prelude.{◌≡◌, ◌-◌, ◌<◌, ◌^◌, length, IfOk};
ghost use Rattle.dwarf_unit.specs.Unit.{program_variables};
ghost use Rattle.read_types.specs.Types.{types_of};
ghost use Rattle.program_entries.specs.Program;

use crate::unit::typed_unit;
use base_list::List;
use dwarf_line_table::source_and_code::SourceAndCode;
use dwarf_line_table::unit_file::unit_file;
use dwarf_unit::unit::make_unit;
use prologue_rows::file::table_file;
use read_debug_nodes::metadata::DebugMetadata;
use read_metadata::metadata::Metadata;
use read_types::types::program_types;
use std::alloc::{AllocError, Global};
use type_nodes::shape::Shape;
use typed_unit::content::TypedUnit;

/// The unit of a program.
#[derive(Drop)]
pub struct ProgramUnit {
    /// Its types, which name one another by their indices.
    pub types: List<Shape>,
    /// What its entries tell but for the types, which they name by their indices.
    pub content: TypedUnit,
}

/// The unit of functions in text order, with the length of all their code in bytes, and with the frame base of each
/// function if that is asked for (DWARF 5, section 3.1.1). The error is out of memory.
pub fn program_unit(
    alloc: Global,
    debug: &DebugMetadata,
    meta: &Metadata,
    functions: &[SourceAndCode],
    text_len: u32,
    frame_base: bool,
) -> Result<ProgramUnit, AllocError>
    requires { length (program_variables functions.now) < 2 ^ 32 - 2 }
    ensures types { IfOk result (λ unit. unit.types ≡ types_of debug.now) }
    ensures few { IfOk result (λ unit. length unit.types < 4294967296) }
    ensures content { IfOk result (λ unit. unit.content
        ≡ Program.program_unit debug.now meta.now text_len frame_base functions.now) }
{
    let entries = make_unit(alloc, functions, meta, text_len)?;
    let unit = unit_file(alloc, functions, meta)?;
    let file = table_file(alloc, &unit)?;
    let types = program_types(alloc, debug)?;
    let nodes = &types.nodes;
    let content = typed_unit(
        alloc, debug, nodes, meta, &file, functions, &entries, frame_base,
    )?;
    Ok(ProgramUnit {
        types: types.types,
        content,
    })
}
