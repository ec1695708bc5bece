//! The scopes of a function that have code: its lexical blocks and the functions that were inlined, each with the
//! addresses of its code.
//!
//! - `scope`, `scopes`, `table`, `known`: The scopes, by a walk over the instructions. The scopes of an instruction are
//!   those on the way of its debug location, and each gets the instruction's addresses.
//!
//! - `laws`: An address is in the ranges of a scope exactly if the scope is on the way of the first code at or after
//!   its instruction's origin. Laws, each the contract of a function that does nothing.
#![tactic(auto)]

mod known;
pub mod laws;
pub mod scope;
pub mod scopes;
mod table;
