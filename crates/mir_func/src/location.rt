//! Debug locations of items.

use rv64_instr::base_ids_crate::metadata::NodeId;

/// The debug location that an item carries (LLVM: `DebugLoc`).
#[derive(Clone, Copy, Debug, PartialEq, Eq)]
pub enum Loc {
    /// None.
    Absent,
    /// That of a `DILocation` node.
    Node(NodeId),
    /// A location that is written out on the item.
    Inline(InlineLoc),
}

/// A debug location that is written out (LLVM: `DILocation`).
#[derive(Clone, Copy, Debug, PartialEq, Eq)]
pub struct InlineLoc {
    /// The line in the program that is debugged, from 1, or 0 for none.
    pub line: u32,
    /// The column, from 1, or 0 for none.
    pub column: u32,
    /// The scope's node.
    pub scope: NodeId,
    /// The node that it is inlined at, if it is inlined.
    pub inlined_at: Option<NodeId>,
}
