//! Compilation of a whole program: its functions are laid out one after the other, then all sections and the listing
//! are made.
#![tactic(auto)]

pub use compile_function::{
    dwarf_unit_crate as dwarf_unit_crate, read_program_crate as read_program_crate,
};

pub mod compile;
mod function;

pub use compile_function::{
    compiled_function as compiled_function, error as error, lists as lists,
};
