//! Printer of functions: the document in machine IR of a function and its substitutions.
//!
//! The fixed objects and the stack come first, then the substitutions, then the blocks in their order, each item on a
//! line of its own in the one text that items have. (LLVM, Machine IR (MIR) Format Reference Manual.)
#![tactic(auto)]

mod body;
mod fixed;
mod name;
mod pool;
pub mod print;
mod stack;
