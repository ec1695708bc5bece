//! Refusals: why the MIR parser rejects a text.
//!
//! A refusal is at a line and of a kind. A text may have many; the one that is reported is at the first such line,
//! and has the lowest number of that line's kinds.
#![tactic(auto)]

pub mod first;
pub mod kind;
