//! Spilling preserves the simulation. A function with spilled registers, whose values are reloaded before the code that
//! reads them and stored after the code that sets them, is simulated by every source that simulates the function
//! without spill code, and matched block ends stay matched. The two runs match between items: each new slot has the
//! value of its register, if the register is live. All here are laws over plain functions, generic in the choice of
//! registers.
#![tactic(auto)]

pub use spill_code as spill_code_crate;

pub mod laws;
