//! Theorems on what is answered: nothing refuses the program of a generated function. No other crate depends on these
//! theorems.
//!
//! - `laws`: The theorems, each the contract of an empty function.
#![tactic(auto)]

pub mod laws;
