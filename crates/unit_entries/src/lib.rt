//! The entries of a unit of functions and variables, with and without inlined functions, as one tree, whose encoding
//! by the same abbreviations is the unit's own.
#![tactic(auto)]

pub mod laws;
