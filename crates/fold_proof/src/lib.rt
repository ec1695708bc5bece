//! Branch folding preserves the simulation and the debug values; and the size of its result.
//!
//! - `run_laws`: The runs of a folded function: a source that simulates a function with matched block ends simulates
//!   the folded one, with kills at the ends of bypassed chains.
//!
//! - `shape_laws`: The shape of a folded function: it is that of a simulated function, if the function before is
//!   simulated with matched block ends.
//!
//! - `follow_laws`: Branch folding with kills preserves the simulation, if block ends are matched, and debug items
//!   don't affect code.
//!
//! - `debug_laws`: The effect of branch folding on debug items: which are lost with their blocks, and which kills are
//!   added for them. All others are kept.
//!
//! - `size_laws`: The size of the result: at most one more jump for each block, since for each kill a debug item is
//!   deleted.
#![tactic(auto)]

pub mod debug_laws;
pub mod follow_laws;
pub mod run_laws;
pub mod shape_laws;
pub mod size_laws;
