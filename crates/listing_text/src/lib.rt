//! The text of the compiler's output: the bytes of five sections in hexadecimal, and a listing of each function.
//!
//! An output has one text, and a text is of at most one output, so theorems on the output that a text shows hold of
//! what a reader finds in it. A long branch is listed as its two instructions: a line that skips, and then a jump.
#![tactic(auto)]

mod functions;
pub mod hex;
pub mod laws;
pub mod line;
pub mod name;
pub mod output;
pub mod print;
mod section;
