//! What the entries of a program tell of its functions and variables, by its debug metadata: their names, where they are
//! declared, and their types.
#![tactic(auto)]

pub mod declared;
pub mod functions;
pub mod laws;
pub mod program;
pub mod unit;
pub mod variables;
