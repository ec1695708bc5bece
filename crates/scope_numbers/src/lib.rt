//! The numbers of the location lists and the range lists of a program, in the order of its entries.
//!
//! - `item`: Items of what stands inside a function, with the numbers of their lists.
//!
//! - `numbers`: The numbers, function by function.
#![tactic(auto)]

pub mod item;
pub mod numbers;
