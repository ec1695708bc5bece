//! Value numbers live into each block (LLVM: MInLocs), by dataflow over all paths.
//!
//! - `tracked`, `entry`: The tracked entities and the live-in values of a block. A tracked entity holds or names a
//!   value: a register, a frame slot, an operand of a debug instruction number, a part of a variable, or a constant. At
//!   a block's start two entities have the same class if and only if on every path to it they have the same token or
//!   both have none. Class 0 means no token on any path, and a `given` bit for each entity means a token on every path.
//!
//! - `flow`, `hand`, `join`, `meet`, `renumber`, `solve`, `turn`, `visit`: The dataflow solver. A block's transfer
//!   function maps each tracked entity to the token at the block's end: one that some entity had at its start, a new
//!   one, or none. A block's entry is the join of what its predecessors propagate: two entities have the same class
//!   there if and only if they have in each of them. Sweeps visit the blocks whose predecessors changed, in reverse
//!   post-order and after three sweeps in post-order too, in turn, until no entry changes.
#![tactic(auto)]

pub mod entry;
pub mod flow;
mod hand;
mod join;
mod meet;
mod renumber;
pub mod solve;
pub mod tracked;
mod turn;
mod visit;
