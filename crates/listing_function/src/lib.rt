//! Makes the listing of a laid-out function: its lines, from the entries of its code, and the lines of its variables.
#![tactic(auto)]

mod branch;
pub mod laws;
mod lines;
pub mod listing;
mod lowered;
pub mod variables;
