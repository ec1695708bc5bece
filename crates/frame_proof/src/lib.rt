//! Frame lowering preserves the simulation. A source that simulates a function simulates the function with its frame:
//! the prologue is added code before the first position, the epilogue is added code before a return, and all other code
//! has the same effect with its slots at their offsets.
#![tactic(auto)]

pub mod laws;
