//! The parser of one line of a machine function's body in MIR: a label, an item with its operands, or a line that is
//! ignored.
//!
//! Each line is parsed by itself. Its comment and its memory operands are cut off, its tokens become lexemes, and
//! these are parsed by a small grammar. Whether the operands fit the opcode, and whether blocks and stack entries
//! exist, isn't checked here. (LLVM, Machine IR (MIR) Format Reference Manual, "Machine Instructions".)
#![tactic(auto)]

pub use mir_func as mir_func_crate;
pub use read_metadata as read_metadata_crate;
pub use read_token as read_token_crate;

mod address;
mod attribute;
pub mod body;
mod exceeds;
pub mod form;
mod front;
mod item;
mod operand;
mod register;
