//! The linkage of a function.

use base_list::List;
use read_metadata::rv64_instr_crate::name::Name;

/// The linkage of a function that isn't the usual one, by which other object files see it and have no other of its
/// name.
#[derive(Clone, Copy, Debug, PartialEq, Eq)]
pub enum Linkage {
    /// Other object files don't see it.
    Local,
    /// Other object files may have another of its name.
    Weak,
}

/// A function with its linkage.
#[derive(Debug, Drop)]
pub struct LinkedName {
    /// The name.
    pub name: Name,
    /// The linkage.
    pub linkage: Linkage,
}

/// Functions with their linkages, in the order of the lines that define them.
pub type Linkages = List<LinkedName>;
