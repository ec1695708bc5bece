//! The line number table of a program, and laws about it.
//!
//! - `source_and_code`, `entries`, `file`, `line_table`, `names`, `debug_locations`, `rows`, `scope_line`, `unit_file`:
//!   The table. The source position of an instruction is that of the debug location of the first code at or after its
//!   origin, in the function as it was read. The files are numbered in the order of their first use, the unit's first.
//!   A row is written at each address where the source position changes.
//!
//! - `laws`: The table has the source position of the code at each address, and no row for any other address. Laws,
//!   each the contract of a function that does nothing.
#![tactic(auto)]

pub mod debug_locations;
pub mod entries;
pub mod file;
pub mod laws;
pub mod line_table;
pub mod names;
pub mod rows;
pub mod scope_line;
pub mod source_and_code;
pub mod unit_file;
