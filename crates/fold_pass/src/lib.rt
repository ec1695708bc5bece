//! The branch folding pass, and what it reports as lost.
//!
//! - `lost`: The losses of branch folding: the debug values and the numbers of DBG_PHIs of bypassed blocks, and the
//!   debug values and all numbers of unreachable blocks.
//!
//! - `fold`: The pass. Every branch through jump-only blocks goes directly to the end of its chain, unreachable blocks
//!   are deleted, and the terminators of the others are rewritten. What bypassed blocks would have assigned becomes
//!   undef where their chains end, and is reported as lost.
#![tactic(auto)]

pub use pass_losses as pass_losses_crate;

pub mod fold;
pub mod lost;
