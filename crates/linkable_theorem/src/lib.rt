//! What the debug sections of an object that a linker places guarantee of the program that was compiled.
#![tactic(auto)]

pub mod laws;
