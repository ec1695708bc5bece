//! The choice of registers to spill, which depends only on code. The registers of a reserve are considered in ascending
//! order. A register that no code names isn't spilled. Another isn't spilled for the first of these reasons that
//! applies: fewer than two scratch registers are free; a call or added code names it; it is live into the first block,
//! which is the target of some branch; the function has as many slots and stack objects as it may. Every other one gets
//! a new slot, and is stored there at the function's start if it is live into the first block.
#![tactic(auto)]

pub use pass_trait as pass_trait_crate;
pub use spill_simulation::spill_code_crate as spill_code_crate;

pub mod laws;
pub mod named;
