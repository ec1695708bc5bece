//! Inlined subroutines with their subprograms.

use base_ids::metadata::NodeId;
use base_list::List;
use dwarf_rnglists::range::AddressRanges;

/// An inlined subroutine (DWARF 5 section 3.3.8.2).
#[derive(Debug, Drop)]
pub struct InlinedSubroutine {
    /// The node of the location of the call.
    pub call: NodeId,
    /// The one in whose code the call is, by its index, and none for a call in the function's own code.
    pub parent: Option<usize>,
    /// The node of the subprogram that was inlined, if it is readable.
    pub subprogram: Option<NodeId>,
    /// The addresses of its code.
    pub ranges: AddressRanges,
}

/// The inlined subroutines of a function, by their first instruction, outer ones first.
pub type InlinedSubroutines = List<InlinedSubroutine>;
