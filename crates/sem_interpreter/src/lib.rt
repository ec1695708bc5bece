//! Interpreter of MIR functions, and its byte memory.
//!
//! - `memory`: Memory as a map of the bytes that were written. It grows with what is written, and the bytes that were
//!   never written are 0, so a run of many steps copies nothing.
//!
//! - `assignments`, `blocks`, `frame`, `machine`, `objects`, `pairs`, `registers`, `slots`, `state`: The run of a
//!   function as it was read, step by step: the contents of its registers, frame slots and memory, the last value of
//!   each debug instruction number, and the last assignment to each variable of the program that is debugged. Each item
//!   is one step, debug items included, and so is a block's end. The state here represents a state of the operational
//!   semantics, and a step here is its step: so a test that runs a function by this interpreter observes what the
//!   theorems are about.
#![tactic(auto)]

mod assignments;
mod blocks;
mod frame;
mod machine;
pub mod memory;
mod objects;
mod pairs;
mod registers;
mod slots;
pub mod state;
