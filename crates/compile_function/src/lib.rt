//! Compiles one function: its code, its location lists and its listing.
//!
//! - `compiled_function`, `location_lists`: Adds the frame to a function, lays it out from an address on, solves the
//!   live-in values of its blocks over all paths, and writes where each variable is at each address in one walk over
//!   its code.
//!
//! - `emit`: Compiles a function after others: its machine code from the end of theirs, the location lists of its
//!   source's variables, and its listing. `lists`: The location lists of all of them.
//!
//! - `error`: Why functions have no output.
#![tactic(auto)]

pub use compile_passes::read_program_crate as read_program_crate;
pub use dwarf_sections as dwarf_sections_crate;
pub use dwarf_sections::{
    dwarf_line_table_crate as dwarf_line_table_crate, dwarf_unit_crate as dwarf_unit_crate,
};

pub mod compiled_function;
pub mod emit;
pub mod error;
pub mod lists;
pub mod location_lists;

pub use compile_passes::passed as passed;
