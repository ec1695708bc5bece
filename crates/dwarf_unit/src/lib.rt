//! The debugging information entries of a program: the compilation unit with its base types, its functions, and their
//! parameters and variables. A function's variables are ordered by the first debug value for any of their parts,
//! location lists are numbered in this order over all functions, and base types are ordered by their first variable.
#![tactic(auto)]

pub use dwarf_line_table as dwarf_line_table_crate;
pub use inline_subroutines as inline_subroutines_crate;

pub mod function;
pub mod inlined;
pub mod subprograms;
pub mod types;
pub mod unit;
pub mod variable;
pub mod variables;
