//! Runs linear scan and passes on a function that was read. The result refines the source, can be compiled, and has a
//! printable listing.
#![tactic(auto)]

pub use compile_theorem::location_ranges_crate as location_ranges_crate;
pub use listing_proof::{
    listing_function_crate as listing_function_crate, read_program_crate as read_program_crate,
};

pub mod error;
pub mod passed;
