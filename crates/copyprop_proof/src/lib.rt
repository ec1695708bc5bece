//! Copy propagation preserves soundness, the simulation and the debug values.
//!
//! - `run_laws`: Copy propagation is proved as a sequence of steps: explicit uses are replaced by their roots, and then
//!   one redundant copy after the other loses its number and is removed. This is the first step. In both runs a copy
//!   has the value of its root, so code that uses roots has the same effect.
//!
//! - `removal_laws`: Removing the redundant copies preserves the simulation. First explicit uses are replaced by their
//!   roots. Then each copy, in the order of the text, loses its number: to the code that defined its value, or to a
//!   DBG_PHI before it. Without a number it is removed: it sets a register to the value that it has already. The
//!   function is sound after each step. The simulation requires other code to be executed near a slot store at a
//!   block's end: if that was a redundant copy, the copy above it that defined its root is still there.
//!
//! - `debug_laws`: The effect on debug items: nothing is lost. A copy's number is substituted by the code that defined
//!   its value, or is on a DBG_PHI in its position; all else is unchanged. A ledger has a line for each item: the items
//!   that replace it, and the number that it got.
#![tactic(auto)]

pub use copyprop_rule as copyprop_rule_crate;

pub mod debug_laws;
pub mod removal_laws;
pub mod run_laws;
