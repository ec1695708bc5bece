//! Runs a function of a compiled program in the simulator: its machine code, and its variables by their location lists.
#![tactic(auto)]

pub use compile_program::dwarf_unit_crate as dwarf_unit_crate;

pub mod laws;
pub mod name;
pub mod run;

pub use compile_program::{compile as compile, error as error};
