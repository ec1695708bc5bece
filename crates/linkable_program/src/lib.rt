//! The object that a linker places of a program that was compiled.
#![tactic(auto)]

pub mod program;
mod sizes;
mod tables;
