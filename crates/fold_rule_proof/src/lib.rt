//! Laws of branch folding's rule: it is functional, commutes with stripping debug instructions, and keeps functions
//! sound; and undef debug values for bypassed blocks.
//!
//! - `rule_laws`: The rule is functional, doesn't depend on debug items and commutes with stripping them, and bypassed
//!   blocks are deleted.
//!
//! - `step_laws`: The effects of folded branches and jumps: a retargeted branch has the same effect with another
//!   target, and an inverted one goes to its target if the old one fell through.
//!
//! - `kill_laws`: Kills: what a bypassed block would have assigned becomes undef at the block where its chain ends.
#![tactic(auto)]

pub use fold_rule as fold_rule_crate;

pub mod kill_laws;
pub mod rule_laws;
pub mod step_laws;
