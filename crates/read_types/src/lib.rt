//! The types of a program, from the nodes of its debug metadata: each type node becomes what a debugger is told of the
//! type, and types name one another by their places in the list of all types.
#![tactic(auto)]

pub mod indices;
pub mod laws;
mod members;
mod shape;
mod tags;
pub mod types;
