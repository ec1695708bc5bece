//! Prints a run of machine code: before each step a line with the step's number, the address, the origin and the value
//! of each variable, and at the end how the run stops.
//!
//! The range of a variable is found by binary search in its own list, whose ranges ascend, so a line takes one search
//! for each variable and never reads a section.
#![tactic(auto)]

pub use sim_machine as sim_machine_crate;

mod line;
pub mod location;
pub mod run;
mod value;
pub mod variable;
