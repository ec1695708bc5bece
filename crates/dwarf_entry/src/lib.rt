//! Trees of debugging information entries: one writer and one grammar of `.debug_abbrev` and `.debug_info` for any
//! tree, whatever its tags and attributes are. The form of an attribute is that of its value, and an abbreviation is
//! the tag, the children flag and the attributes of an entry without their values.
#![tactic(auto)]

pub mod abbreviation;
pub mod constants;
pub mod laws;
pub mod offsets;
pub mod size;
pub mod tree;
pub mod write;
