//! The inlined subroutines of a function: an instance for each call through which its code was inlined, with the
//! addresses of that code.
//!
//! - `instance`, `instances`, `table`, `way`, `ranges`: The instances, by a walk over the instructions. The calls of an
//!   instruction are the `inlinedAt` nodes of its debug location, one after the other up to the function's own code or
//!   to a node that isn't readable. Each node is marked when it is met, so that none is walked again, and of two
//!   instructions one after the other only those calls are looked at that one of them has and the other hasn't.
//!
//! - `laws`: An address is in the ranges of an instance exactly if the first code at or after its instruction's origin
//!   was inlined through the instance's call. Laws, each the contract of a function that does nothing.
#![tactic(auto)]

pub use dwarf_line_table as dwarf_line_table_crate;

pub mod instance;
pub mod instances;
pub mod laws;
mod ranges;
mod table;
mod way;
