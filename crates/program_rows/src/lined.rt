//! Functions with the lines of their bodies.

ghost use Rattle.std.specs.Prelude.{◌≡◌, map, [], IfOk};
ghost use Rattle.std.specs.List.{flat_map};
ghost use Rattle.std.specs.Option.{option_copied};
ghost use Rattle.prologue_rows.specs.Table.{declared_of};
ghost use Rattle.program_rows.specs.Program.{subprogram_of, line_by, body_line, AreLined};

use dwarf_line_table::source_and_code::SourceAndCode;
use mir_func::rv64_instr_crate::name::Name;
use prologue_rows::function::LinedFunction;
use read_debug_nodes::metadata::DebugMetadata;
use read_debug_nodes::node::{DebugNode, DebugSubprogram};
use read_metadata::metadata::Metadata;
use std::alloc::{AllocError, Global};

/// Functions, each with the line of its body.
pub(crate) fn lined<'a>(
    alloc: Global,
    debug: &DebugMetadata,
    meta: &Metadata,
    functions: &[SourceAndCode<'a>],
) -> Result<Vec<LinedFunction<'a>>, AllocError>
    ensures { IfOk result (λ lined. AreLined debug.now meta.now functions.now lined.items) }
{
    let mut lined = Vec::new(alloc);
    for index in 0..functions.len() {
        let function = functions[index];
        lined.push(LinedFunction {
            function,
            line: body_line(debug, meta, &function),
            declared: &[],
        })?;
    }
    Ok(lined)
}

/// The line of a function's body.
fn body_line(debug: &DebugMetadata, meta: &Metadata, function: &SourceAndCode) -> u32
    ensures { result ≡ body_line debug.now meta.now function.now }
{
    let source = function.source;
    match subprogram_of(debug, meta, &source.name) {
        None => 0,
        Some(subprogram) => line_by(subprogram),
    }
}

/// The line of a subprogram's body, or of its declaration if the body has none.
fn line_by(subprogram: &DebugSubprogram) -> u32
    ensures { result ≡ line_by subprogram.now }
{
    if subprogram.scope_line == 0 {
        subprogram.line
    } else {
        subprogram.scope_line
    }
}

/// The subprogram of the function with a name.
fn subprogram_of<'a>(
    debug: &'a DebugMetadata,
    meta: &Metadata,
    name: &Name,
) -> Option<&'a DebugSubprogram>
    ensures { option_copied result ≡ subprogram_of debug.now meta.now name.now }
{
    match debug.node(meta.subprogram_of(name)?)? {
        DebugNode::Subprogram(subprogram) => Some(subprogram),
        _ => None,
    }
}
