//! The dead-code analysis of a function. What is live out of a block is needed at its end; from there one backward walk
//! over each block, with bit vectors of places, finds the items that only set a place which nothing after them needs,
//! or x0: these are dead, and need nothing themselves.
#![tactic(auto)]

pub mod judge;
