//! The compiler's correctness theorems, for an output of compiling functions: its machine code refines the source
//! functions, its location lists are exact, its listing is in address order and shows the passed functions with their
//! frames, and `.text` has the encoding of each listed instruction.
#![tactic(auto)]

pub use location_ranges as location_ranges_crate;

pub mod laws;
