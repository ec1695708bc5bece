//! Makes the text that the command `selftest` writes: a function is generated from two numbers and compiled, and its
//! machine code runs in lockstep with it. Counts the values in its location lists during the run, and those that the
//! source knows.
#![tactic(auto)]

pub use run_command as run_command_crate;

pub mod text;
