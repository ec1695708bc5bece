//! Queries of the value analysis of a function with its frame: the location of a part of a variable before an item, and
//! whether a place holds the value of a part, of an operand or of another place there, on every path. Each answer is by
//! the classes that the walk from the start of the block computes.
#![tactic(auto)]

pub mod machine;
pub mod point;
mod sits;
mod stand;
pub mod variable;
