//! Where a linker places debugging information: the sections after their relocations are those of the same tables
//! with each address moved.
#![tactic(auto)]

pub mod laws;
pub mod sections;
