//! Invariants of the types of a function's parts, as facts about all blocks and items. The functions walk over a whole
//! function and have no effect at run time: they prove the invariants of the fields' types.
//!
//! - `blocks`: Invariants of the types of a function's parts, as facts about all of its blocks, for proofs over a whole
//!   function.
//!
//! - `typed`: Invariants of the types of items: code has the form of its opcode, and each number has the size of its
//!   type. A contract sees a value without its type, so a walk over the items proves them.
#![tactic(auto)]

pub mod blocks;
pub mod typed;
