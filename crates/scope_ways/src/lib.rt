//! The scopes that code is in, by its debug location: those of its function, and those of functions that were inlined.
#![tactic(auto)]

pub mod outer;
pub mod scope;
pub mod way;
