//! Generates functions from numbers, as large valid inputs for tests of the whole compiler. All choices are drawn from
//! one pseudorandom sequence, so the same number always generates the same function. A function stores its argument
//! into its four slots. Each of its blocks has six groups of items, which compute, copy, store and load, and assign to
//! four source variables by DBG_INSTR_REFs to these instructions. Branches have any block but the first as target, so
//! there are loops and joins. Jumps go forward, and the last block returns.
#![tactic(auto)]

mod draws;
mod end;
pub mod generator;
mod group;
mod items;
