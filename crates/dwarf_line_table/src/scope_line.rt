//! The source line of a debug location.

ghost use Rattle.std.specs.Prelude.{◌≡◌, Some};
ghost use Rattle.dwarf_line_table.specs.SourcePosition.{no_line, node_line, scope_line};

use base_ids::metadata::NodeId;
use mir_func::location::Loc;
use read_metadata::metadata::Metadata;
use read_metadata::node::LocationNode;

/// The line, column and scope of a debug location.
#[derive(Clone, Copy, Debug, PartialEq, Eq)]
pub struct ScopeLine {
    /// The line, from 1; 0 for code without a line.
    pub line: u32,
    /// The column, from 1; 0 for none.
    pub column: u32,
    /// The node of the scope.
    pub scope: Option<NodeId>,
}

/// The line of a debug location, by the metadata: 0 if it is absent or not readable.
pub fn scope_line(meta: &Metadata, loc: &Loc) -> ScopeLine
    ensures { result ≡ scope_line meta.now loc.now }
{
    match loc {
        Loc::Absent => no_line(),
        Loc::Node(node) => match meta.location(*node) {
            None => no_line(),
            Some(found) => node_line(found),
        },
        Loc::Inline(inline) => ScopeLine {
            line: inline.line,
            column: inline.column,
            scope: Some(inline.scope),
        },
    }
}

fn node_line(node: &LocationNode) -> ScopeLine
    ensures { result ≡ node_line (Some node.now) }
{
    ScopeLine {
        line: node.line,
        column: node.column,
        scope: node.scope,
    }
}

fn no_line() -> ScopeLine
    ensures { result ≡ no_line }
{
    ScopeLine {
        line: 0,
        column: 0,
        scope: None,
    }
}
