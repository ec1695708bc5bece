//! Dead code elimination: the rule, and that it preserves the simulation.
//!
//! - `code_laws`: Which code is dead, and why the function without it behaves the same. An instruction is dead if its
//!   only effect is to set a place that no code after it needs, or x0. What is needed is computed from the end of each
//!   block backwards, so that a chain of such instructions within a block is dead at once. After a removed definition a
//!   place may hold another value than before, until it is defined again: there it is wrong, and debug values and
//!   DBG_PHIs that name it become undef. No code that is kept reads a wrong place. So both runs agree except at wrong
//!   places, and every value that a debug value reports is still true: removing dead code preserves the weak
//!   simulation.
#![tactic(auto)]

pub mod code_laws;
