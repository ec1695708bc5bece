//! The code rule of branch folding, and the function that implements it. Every branch through jump-only blocks goes
//! directly to the end of its chain; unreachable blocks are deleted; a conditional branch whose two edges end at one
//! block is removed; and no jump leads to the next block. Debug items stay at their positions in the kept blocks.
#![tactic(auto)]

pub mod fold;
pub mod reached;
mod tail;
mod turned;
pub mod ways;
