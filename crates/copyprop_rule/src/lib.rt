//! Copy propagation of a whole function, block by block in the order of the text, with fresh numbers counted up from
//! block to block. The code rule is short, and doesn't depend on debug items.
#![tactic(auto)]

pub mod function;
pub mod laws;
