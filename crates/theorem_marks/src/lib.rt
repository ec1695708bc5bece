//! Theorems on debug values and starts: debug values that survive passes keep their order with kept code, and every
//! function has a start. No other crate depends on these theorems.
//!
//! - `order_laws`: After passes, each debug value that isn't reported lost is between the same kept code as in the
//!   source.
//!
//! - `start_laws`: Every function has a start with any given arguments and any given results of its calls.
#![tactic(auto)]

pub mod order_laws;
pub mod start_laws;
