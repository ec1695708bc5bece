//! The second stage of the MIR lexer: from the tokens of a line to lexemes, which have values.
//!
//! The lexer determines the span and the class of a token. Here its text is read: the values of numbers, the numbers
//! of registers, stack entries and blocks, and keywords. The parser of a line then works on lexemes; of the text it
//! reads only names. (LLVM, Machine IR (MIR) Format Reference Manual.)
#![tactic(auto)]

pub mod lexeme;
mod number;
mod register;
pub mod sentence;
pub mod symbol;
mod word;
