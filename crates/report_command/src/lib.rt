//! Makes the text that the command `report` writes: for each function of a compiled program, the location coverage of
//! each variable, in machine words, and what the passes lost.
#![tactic(auto)]

pub mod laws;
pub mod report;
