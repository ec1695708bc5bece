//! The driver of the compiler back end, as one call: from the words of a command line and the MIR text of functions
//! to the bytes that the command writes.
//!
//! The text is read to its end, and parsed as it comes, or refused at its first bad line. `strip` writes the functions
//! without their debug items. `compile` runs passes, lowers each function's frame and emits its code after
//! that of the function before. A data-flow analysis of values over the control-flow graph finds, at each address,
//! the first location that holds each part of each variable; the ranges of these locations are the variable's
//! location list. Code, location lists, debugging information entries and line table become five sections, with a
//! listing of each function; `listing` writes the listing alone, and `object` the sections as a relocatable object with
//! symbols and relocations. `report` writes at how many of each function's words
//! its variables have a location, and what passes lost; `run` the run of a function's machine code, step by step,
//! with the values of its variables. The output is one text, complete before its first byte is written. `gen` reads
//! nothing, and writes the text of a generated function. Nor does `selftest`, which compiles such a function, runs
//! it, and writes how many values its location lists have.
#![tactic(auto)]

mod compiled;
pub mod driver;
pub mod telling;
mod whole_text;
