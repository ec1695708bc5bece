//! The tokens of lines.

use crate::text::push_bytes;
use read_lexer::comment::before_memory_operands;
use read_lexer::lexer::tokens;
use read_lexer::parts::{Class, Token};
use std::alloc::{AllocError, Global};

/// A letter for a class, and the byte itself for a token of one byte.
fn letter(class: Class) -> char {
    match class {
        Class::Word => 'w',
        Class::Register => 'r',
        Class::Percent => 'p',
        Class::Node => 'n',
        Class::Kind => 'k',
        Class::Symbol => 's',
        Class::Integer => 'i',
        Class::Float => 'f',
        Class::Text => 't',
        Class::Single(b) => char::from(b),
    }
}

/// Appends each token as its class, its text and a space.
fn push_all(told: &mut String, line: &[u8], found: &[Token]) -> Result<(), AllocError> {
    for token in found {
        told.push(letter(token.class))?;
        if token.start <= token.end && token.end <= line.len() {
            push_bytes(told, &line[token.start..token.end])?;
        }
        told.push(' ')?;
    }
    Ok(())
}

/// Appends the tokens of a line before its memory operands, or the line's fault; `floats` is whether floating-point
/// literals are tokens.
pub fn push_tokens(
    alloc: Global,
    floats: bool,
    told: &mut String,
    line: &[u8],
) -> Result<(), AllocError> {
    match tokens(alloc, floats, before_memory_operands(line)) {
        Ok(found) => push_all(told, line, found.as_slice()),
        Err(fault) => told.push_str(fault.to_string(alloc)?.as_str()),
    }
}
