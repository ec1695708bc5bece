//! Simulation of a function with its frame by the machine, step by step, on the image of its layout.
//!
//! - `step_laws`: The matching relation and its steps. If an image has the function's code, each of the machine's steps
//!   is one of the function's: the machine has the same registers, and the same memory except the frame's bytes, in
//!   which the function's slots have their contents. A taken long branch is two steps of the machine; debug items and
//!   block ends are none.
//!
//! - `place_laws`: The values of places. A place with a token holds at the machine the value that the token names.
//!
//! - `layout_laws`: The image of a laid-out function has the function's code as the machine's steps need it.
#![tactic(auto)]

pub mod layout_laws;
pub mod place_laws;
pub mod step_laws;
