//! The line number table of a program: the rows of its functions, with the lines of their bodies by its debug metadata.
#![tactic(auto)]

pub mod laws;
mod lined;
pub mod table;
