//! Makes the relocatable object that the command `object` writes: the sections of a compiled program, a symbol for each
//! function and each other function that is called, and a relocation at each call site.
#![tactic(auto)]

pub mod calls;
mod halves;
pub mod laws;
pub mod names;
pub mod object;
mod sections;
pub mod symbols;
