//! The selection of registers to spill, and of those that are live into the function.
//!
//! - `among`, `choice`, `left`, `scratch`: The selection by the rule: which registers are scratch, which registers of a
//!   reserve are spilled and into which slots, and why the others aren't. The registers that are live into the function
//!   are a parameter.
//!
//! - `incoming`: The registers that are live into a function's first block, by liveness analysis.
#![tactic(auto)]

pub use spill_rule as spill_rule_crate;

pub mod among;
pub mod choice;
pub mod incoming;
pub mod left;
pub mod scratch;
