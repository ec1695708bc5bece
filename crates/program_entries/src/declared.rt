//! Where functions and variables are declared.

ghost use Rattle.std.specs.Prelude.{◌≡◌};
ghost use Rattle.std.specs.Option.{option_copied, option_and_then};
ghost use Rattle.program_entries.specs.Declarations.{as_file, declared_in, is_unit_file, node_of};

use base_ids::metadata::NodeId;
use dwarf_info::entry::text_of;
use dwarf_line_table::file::SourceFile;
use read_debug_nodes::metadata::DebugMetadata;
use read_debug_nodes::node::DebugNode;
use read_metadata::node::FileNode;
use typed_unit::content::Declared;

/// The node that another one names.
pub(crate) fn node_of(debug: &DebugMetadata, node: Option<NodeId>) -> Option<&DebugNode>
    ensures { option_copied result ≡ node_of debug.now node }
{
    debug.node(node?)
}

/// The file that a node names.
fn file_of(debug: &DebugMetadata, node: Option<NodeId>) -> Option<&FileNode>
    ensures { option_copied result ≡ option_and_then as_file (node_of debug.now node) }
{
    match node_of(debug, node)? {
        DebugNode::File(file) => Some(file),
        _ => None,
    }
}

/// Whether a node names the unit's file.
fn is_unit_file(unit: &SourceFile, debug: &DebugMetadata, file: Option<NodeId>) -> bool
    ensures { result ≡ is_unit_file unit.now (option_and_then as_file (node_of debug.now file)) }
{
    match file_of(debug, file) {
        None => false,
        Some(file) => {
            text_of(file.name.as_slice()) == unit.name.as_slice()
                && text_of(file.dir.as_slice()) == unit.dir.as_slice()
        }
    }
}

/// The line of the unit's file, whose number is 0, in which something is declared.
pub(crate) fn declared_in(
    unit: &SourceFile,
    debug: &DebugMetadata,
    file: Option<NodeId>,
    line: u32,
) -> Option<Declared>
    ensures { result ≡ declared_in unit.now debug.now file line }
{
    if is_unit_file(unit, debug, file) && line != 0 {
        Some(Declared { file: 0, line })
    } else {
        None
    }
}
