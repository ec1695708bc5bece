//! Machine code emission for a function: frame lowering, and then the layout of its words.
#![tactic(auto)]

pub mod code;
mod count;
