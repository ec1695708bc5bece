//! Simulation of a source by the machine's run on the image of a function's layout.
//!
//! - `run_laws`: The machine's run on the code of a function with its frame, against the source's run.
//!
//! - `frame_laws`: What the machine's run requires of the origins of items in a function with its frame.
//!
//! - `headline_laws`: The statement `Headline` with location lists, for every function that simulates a source, with
//!   its frame and its layout: the machine simulates the source, and lists that name only places with the value name
//!   values of the newest assignments.
#![tactic(auto)]

pub mod frame_laws;
pub mod headline_laws;
pub mod run_laws;
