//! The sizes of the variables of a unit that have location lists, by their types.
#![tactic(auto)]

pub mod sizes;
