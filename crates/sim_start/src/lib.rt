//! Makes the text that the command `run` writes: a run of machine code from a start with given arguments, with given
//! values as the results of its calls, one line for each step.
#![tactic(auto)]

pub use sim_trace as sim_trace_crate;

pub mod answers;
pub mod start;
pub mod text;
