//! The object of a compiled program that a linker places: machine code with the places at which it names functions and
//! globals, debug sections with their relocations, and symbols (System V gABI, chapter 4, and RISC-V ELF psABI).
#![tactic(auto)]

pub use entry_placement as entry_placement_crate;
pub use read_linkage as read_linkage_crate;

mod fits;
mod functions;
mod names;
pub mod object;
pub mod reference;
pub mod sections;
mod symbols;
pub mod tables;
