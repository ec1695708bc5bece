//! The theorem that listings of functions that were read are printable: the contract of an empty function.
#![tactic(auto)]

pub use listing_function as listing_function_crate;
pub use read_proof::read_program_crate as read_program_crate;

pub mod laws;
