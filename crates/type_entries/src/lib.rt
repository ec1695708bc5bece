//! The entries of types: what a debugger is told of each type that stands.
#![tactic(auto)]

pub mod all_types;
pub mod constants;
pub mod laws;
pub mod members;
pub mod table;
pub mod types;
