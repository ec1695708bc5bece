//! The parser of machine IR (LLVM MIR): from the bytes of a text to its machine functions, with their substitutions
//! and the metadata that they share, or to the first refusal.
//!
//! Each line of a function's body is parsed and judged by itself, and then against the lines before it. Reading stops
//! at the first line that is refused. Where a function closes, its branches, its stack objects and its block ends are
//! checked.
#![tactic(auto)]

pub mod body;
pub mod closing;
pub mod ends;
pub mod error;
pub mod objects;
pub mod parse;
pub mod pool;
pub mod program;
