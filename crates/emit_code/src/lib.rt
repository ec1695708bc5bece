//! Machine code emission with branch relaxation, for a function with its frame. An instruction is encoded as one word;
//! a call and a long conditional branch as two. A conditional branch is long if its target is out of its reach: it is
//! then the inverted branch over the next word, and a jump to the target. Relaxation works in rounds: all branches
//! start short, and each round makes those long that don't reach, which increases other distances, until every short
//! branch reaches.
#![tactic(auto)]

mod branch_relaxation;
pub mod code;
mod entries;
pub mod laws;
pub mod layout;
pub mod objects;
mod plan;
mod span;
mod table;
mod words;
