//! The program in an input, read as its bytes come: each line as it ends, and each function as its document closes.
//!
//! Neither the text nor all its documents are held. The bytes of a line are held until it ends, the lines of a function
//! until it closes and the metadata that its lines name is known: the IR block may stand behind functions, and functions
//! in front of it wait from the first one on that has a debug value. After the first refusal nothing more is parsed, and the input is still read to its end: a failed read and an input above the
//! limit come before any refusal.
#![tactic(auto)]

pub mod error;
pub mod input;
mod partial;
mod reader;
mod unmarked;
