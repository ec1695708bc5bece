//! Runs machine code and, in lockstep, the function as it was read. Counts the values that the location lists have
//! during the run, and the parts of variables of which the source knows the value at the same time. So the program
//! measures how much of the known values its location lists cover.
#![tactic(auto)]

pub mod counts;
mod known;
mod read;
pub mod run;
mod source;
pub mod text;
mod turn;
