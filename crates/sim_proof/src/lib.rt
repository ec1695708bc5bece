//! Proves that the simulator follows the machine semantics on the image of the program.
//!
//! - `run_laws`: A run of the simulator is a run of the machine semantics, with the answers to its calls as the script.
//!   So if the headline holds of an image, it holds of each state that the simulator comes to.
//!
//! - `image_laws`: The image of a function that is laid out is an image of the code that the simulator runs. So
//!   theorems on the image hold of what the simulator runs.
#![tactic(auto)]

pub mod image_laws;
pub mod run_laws;
