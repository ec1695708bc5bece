//! Texts and what is told of their nodes.

use base_list::List;
use read_debug_nodes::metadata::{DebugMetadata, read_debug_metadata};
use read_debug_nodes::read_metadata_crate::read_lexer_crate::line::{Line, Lines};
use std::alloc::{AllocError, Global};
use std::fmt::Write;

/// The metadata in lines.
pub fn metadata_of(alloc: Global, text: &[&str]) -> Result<DebugMetadata, AllocError> {
    let mut lines: Lines = List::new(alloc);
    for line in text {
        lines.push(Line {
            number: 1,
            text: List::from_slice(alloc, line.as_bytes())?,
        })?;
    }
    read_debug_metadata(alloc, &lines)
}

/// Appends bytes, each as a character, behind a space.
pub fn push_name(told: &mut String, bytes: &[u8]) -> Result<(), AllocError> {
    told.push(' ')?;
    for b in bytes {
        told.push(char::from(*b))?;
    }
    Ok(())
}

/// Appends a number behind a space, and a word if there is none.
pub fn push_number(
    told: &mut String,
    number: Option<u64>,
    missing: &str,
) -> Result<(), AllocError> {
    match number {
        Some(number) => write!(told, " {number}"),
        None => write!(told, " {missing}"),
    }
}
