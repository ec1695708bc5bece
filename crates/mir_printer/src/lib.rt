//! Printer of items: the one text of each item, in the syntax of LLVM's MIR, for the listing and for printed
//! functions.
//!
//! Each call appends to a text. An item is its instruction, mark or phi, and the debug location after it. If
//! memory runs out the text keeps what it had, with some of the item after it.
#![tactic(auto)]

mod instruction;
pub mod item;
mod location;
mod mark;
mod operand;
pub mod symbol;
pub mod text;
