//! Prints a generated function as a MIR file: the metadata of its four variables, and its document.
#![tactic(auto)]

pub mod print;
