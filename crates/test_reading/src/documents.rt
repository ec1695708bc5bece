//! The documents of texts.

use crate::text::push_bytes;
use read_documents::frame::documents;
use read_documents::parts::{Documents, FunctionDocument};
use read_lexer::line::Line;
use std::alloc::{AllocError, Global};
use std::fmt::Write;

/// Appends a word, and lines with their numbers.
fn push_lines(told: &mut String, word: &str, lines: &[Line]) -> Result<(), AllocError> {
    told.push_str(word)?;
    for line in lines {
        write!(told, " {}[", line.number)?;
        push_bytes(told, line.text.as_slice())?;
        told.push(']')?;
    }
    told.push('\n')
}

/// Appends the first and the last line of a function, and the lines of each key.
fn push_function(told: &mut String, function: &FunctionDocument) -> Result<(), AllocError> {
    write!(told, "function {} {}\n", function.opened, function.closed)?;
    push_lines(told, "name", function.name.as_slice())?;
    push_lines(told, "stack", function.stack.as_slice())?;
    push_lines(told, "fixed", function.fixed.as_slice())?;
    push_lines(told, "substitutions", function.substitutions.as_slice())?;
    push_lines(told, "body", function.body.as_slice())
}

fn push_documents(told: &mut String, found: &Documents) -> Result<(), AllocError> {
    push_lines(told, "metadata", found.meta.as_slice())?;
    for function in found.functions.as_slice() {
        push_function(told, function)?;
    }
    write!(told, "{:?}", found.bad)
}

/// Appends the documents of a text with the numbers of their lines, and the line where it is no sequence of documents.
pub fn push_documents_of(alloc: Global, told: &mut String, text: &[u8]) -> Result<(), AllocError> {
    if text.len() < 1 << 20 {
        push_documents(told, &documents(alloc, false, text)?)
    } else {
        Ok(())
    }
}
