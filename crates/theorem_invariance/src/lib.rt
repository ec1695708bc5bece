//! Invariance theorems: the program's `.text` is the same with and without debug instructions. No other crate depends
//! on these theorems.
//!
//! - `text_laws`: Code layout. Two programs whose functions have equal code up to debug items, pairwise, have the same
//!   bytes of `.text`.
//!
//! - `passes_laws`: Passes and code layout. From functions with equal code up to debug items, pairwise, the same passes
//!   make functions with the same bytes of `.text`.
//!
//! - `code_laws`: Outputs. Two outputs that are compiled of passed functions with equal code up to debug items,
//!   pairwise, have the same `.text`.
//!
//! - `output_laws`: Outputs of programs. From two programs with equal code up to debug items, the same passes and
//!   compilation make the same `.text`.
//!
//! - `run_laws`: Runs of the command. The machine code that `compile` writes depends only on the code that it reads and
//!   on its options, not on the debug items in the text.
#![tactic(auto)]

pub mod code_laws;
pub mod output_laws;
pub mod passes_laws;
pub mod run_laws;
pub mod text_laws;
