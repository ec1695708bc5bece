//! Theorems on generated functions and on what they are compiled to: none has a virtual register, and none has a frame or
//! a section above the limit, whatever passes run.
//!
//! - `laws`: The theorems, each the contract of an empty function.
#![tactic(auto)]

pub mod laws;
