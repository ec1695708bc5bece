//! Inlined subroutines.

use base_ids::metadata::NodeId;
use base_list::List;
use dwarf_rnglists::range::AddressRangeLists;

/// An inlined subroutine (DWARF 5 section 3.3.8.2).
#[derive(Clone, Copy, Debug, PartialEq, Eq)]
pub struct Instance {
    /// The node of the location of the call.
    pub call: NodeId,
    /// The instance in whose code the call is, by its index. None for a call in the function's own code, and for one
    /// whose own call isn't readable.
    pub parent: Option<usize>,
    /// A scope of the function that was inlined, itself or a lexical block of it: that of the debug location of the
    /// first instruction that was inlined through the call, or of the location there of the call in its code.
    pub scope: Option<NodeId>,
}

/// The instances of a function, by their first instruction, outer ones first.
pub type Instances = List<Instance>;

/// The inlined subroutines of a function.
#[derive(Debug, Drop)]
pub struct InlinedCode {
    /// The instances.
    pub instances: Instances,
    /// The addresses of the code of each: of each instruction by the first code at or after its origin, so of the
    /// prologue's by the function's first code.
    pub ranges: AddressRangeLists,
}
