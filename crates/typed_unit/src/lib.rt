//! The entries of a compilation unit with all its types, as one tree: each of its parameters and variables has a type.
#![tactic(auto)]

pub mod constants;
pub mod content;
pub mod entries;
pub mod laws;
pub mod plain;
pub mod tree;
pub mod unknown;
