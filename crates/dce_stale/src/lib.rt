//! The forward analysis of stale places: where a place may hold another value once dead code is removed. After dead
//! code that sets a place the place is wrong until code that is kept sets it. The result is the set of the places that
//! are wrong at the start of each block, computed as a fixpoint over the blocks by a worklist, predecessors first
//! except over back edges. Within a block it is computed item by item, with the same transfer step.
#![tactic(auto)]

pub use dce_analysis as dce_analysis_crate;

pub mod places;
mod solve;
mod walk;
