//! The choice of linear scan register allocation: which physical register each virtual register of a function gets, by
//! the function's liveness.
#![tactic(auto)]

pub use scan_liveness as scan_liveness_crate;

pub mod choice;
pub mod given;
