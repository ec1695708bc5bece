//! The lexer of machine IR (LLVM MIR): it cuts a line into tokens, each a class and a span of the line.
//!
//! No token continues on the next line, so the lexer takes one line at a time, and copies none of its text. Spaces
//! and tabs separate tokens. Any other byte begins a token, whose class and length follow from it and the bytes after
//! it. A line is lexed from left to right, up to its first fault. A comment, and what follows `::` on an
//! instruction's line, is cut off before the line is lexed.
#![tactic(auto)]

pub mod bytes;
pub mod comment;
pub mod fault;
mod front;
pub mod lexer;
pub mod line;
pub mod parts;
