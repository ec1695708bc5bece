//! Generated functions as programs, and theorems on their runs.
//!
//! - `laws`: Theorems, each the contract of an empty function: no run of a generated function stops on a frame fault,
//!   and its debug values are for whole variables.
//!
//! - `program`: The program that consists of one generated function. It satisfies what holds of programs that were
//!   read, so it can be compiled without being printed and parsed.
#![tactic(auto)]

pub use read_proof::read_program_crate as read_program_crate;

pub mod laws;
pub mod program;
