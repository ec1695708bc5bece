//! The text of a program without its debug items is parsed back as that program: a law, the contract of a function that
//! does nothing.
#![tactic(auto)]

pub use strip_command as strip_command_crate;

pub mod laws;
