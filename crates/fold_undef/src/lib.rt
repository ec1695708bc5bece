//! Undef debug values for blocks that branch folding bypasses: what a bypassed block would have assigned becomes undef
//! at the block where its chain ends. Each block is visited once, and duplicates are found by hashing.
#![tactic(auto)]

pub mod bypassed;
pub mod kill;
pub mod put;
mod seen;
