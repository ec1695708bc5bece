//! The file of a unit.

ghost use Rattle.std.specs.Prelude.{◌≡◌, IfOk};
ghost use Rattle.std.specs.Option.{option_copied};
ghost use Rattle.read_metadata.specs.declared.node.FileNode.{FileNode};
ghost use Rattle.dwarf_line_table.specs.Files.{file_of_node, function_file};
ghost use Rattle.dwarf_line_table.specs.Program.{program_file};

use crate::file::SourceFile;
use crate::source_and_code::SourceAndCode;
use base_list::List;
use dwarf_info::entry::text_of;
use mir_func::rv64_instr_crate::name::Name;
use read_metadata::metadata::Metadata;
use read_metadata::node::FileNode;
use std::alloc::{AllocError, Global};

/// The unit's file: that of the first function whose subprogram has a readable one, or an empty name and directory if
/// none has.
pub fn unit_file(
    alloc: Global,
    functions: &[SourceAndCode],
    meta: &Metadata,
) -> Result<SourceFile, AllocError>
    ensures { IfOk result (λ file. file ≡ program_file meta.now functions.now) }
{
    for function in functions {
        let source = function.source;
        if let Some(file) = function_file(meta, &source.name) {
            return file_of_node(alloc, file);
        }
    }
    Ok(SourceFile {
        name: List::new(alloc),
        dir: List::new(alloc),
    })
}

/// The file of the subprogram of a function.
fn function_file<'a>(meta: &'a Metadata, name: &Name) -> Option<&'a FileNode>
    ensures { option_copied result ≡ function_file meta.now name.now }
{
    meta.file_of_scope(meta.subprogram_of(name)?)
}

fn file_of_node(alloc: Global, node: &FileNode) -> Result<SourceFile, AllocError>
    ensures { IfOk result (λ file. file ≡ file_of_node node.now) }
{
    Ok(SourceFile {
        name: List::from_slice(alloc, text_of(node.name.as_slice()))?,
        dir: List::from_slice(alloc, text_of(node.dir.as_slice()))?,
    })
}
