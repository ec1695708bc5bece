//! Where a linker places the object of an output: its code runs in the environment of the placement, and its debug
//! sections are those of the same entries, rows and functions, moved there.
#![tactic(auto)]

pub mod laws;
