//! The nodes of a graph that come to no cycle.
#![tactic(auto)]

pub mod ends;
mod search;
