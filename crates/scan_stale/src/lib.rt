//! The forward analysis of stale registers, where virtual registers are replaced by physical ones. A register is stale
//! where its place may have another value: after code that sets another register in the same place, until code sets it
//! again; and from the function's start on, if it gets a place, until code sets it. The result is the set of the registers
//! that are stale at the start of each block, computed as a fixpoint over the blocks by a worklist, predecessors first
//! except over back edges. Within a block it is computed item by item, with the same transfer step.
#![tactic(auto)]

pub use scan_choice as scan_choice_crate;
pub use scan_choice::scan_liveness_crate as scan_liveness_crate;

pub mod places;
mod solve;
pub mod stale;
pub mod transfer;
mod walk;
