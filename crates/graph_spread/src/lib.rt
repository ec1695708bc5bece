//! The nodes of a graph that a fact spreads to.
#![tactic(auto)]

pub use dataflow as dataflow_crate;

mod reach;
pub mod spread;
