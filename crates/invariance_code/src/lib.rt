//! Invariance theorems for one function: its frame and its machine words are the same with and without debug
//! instructions.
//!
//! - `frame_laws`: The frame depends only on the code. Functions with equal code up to debug items have equal code with
//!   their frames.
//!
//! - `words_laws`: The words of a function, and which instruction is at each address, depend only on its code, not on
//!   debug items or on positions in the source.
#![tactic(auto)]

pub mod frame_laws;
pub mod words_laws;
