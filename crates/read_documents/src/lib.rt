//! The YAML documents of a machine IR file: its IR block and the document of each machine function, as lists of
//! lines.
//!
//! The documents are separated by marker lines: `--- |` opens the block with the LLVM IR and its metadata, `---`
//! opens a machine function, and `...` closes either. In a function's document each line belongs to the last key at
//! the start of a line; the lines of five keys are kept. This crate only sorts lines and finds the first line where
//! the file isn't such a sequence of documents. It doesn't parse the lines that it keeps.
#![tactic(auto)]

pub mod frame;
pub mod key;
pub mod open_function;
pub mod parts;
pub mod scan;
pub mod text;
