//! Theorems on the texts of generated functions: they are read as the functions. Only `theorem_answers` depends on
//! these theorems.
//!
//! - `laws`: The theorems, each the contract of an empty function.
#![tactic(auto)]

pub mod laws;
