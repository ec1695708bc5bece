//! Laws of the MIR parser: invariants of every program that it reads. Each law is the contract of a function that
//! does nothing.
#![tactic(auto)]

pub use read_program as read_program_crate;

pub mod laws;
