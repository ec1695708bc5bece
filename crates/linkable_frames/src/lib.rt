//! What the call frame information of an object that a linker places guarantees.
#![tactic(auto)]

pub mod laws;
