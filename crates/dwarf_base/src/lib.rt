//! What the DWARF 5 sections share: constants, LEB128 numbers, and readers of numbers at the front of bytes. A reader
//! accepts exactly what the writers write: the shortest encoding of a number in range. It takes no memory.
#![tactic(auto)]

pub mod constants;
pub mod front;
pub mod leb;
pub mod limits;
