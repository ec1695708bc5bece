//! Objects that a linker places: sections with their relocations, a symbol for each section, and the symbols of
//! functions (System V gABI, chapter 4). Which sections there are is the caller's.
#![tactic(auto)]

pub mod laws;
pub mod object;
pub mod section;
mod tables;
