//! Metadata nodes.

use crate::text::push_bytes;
use base_ids::metadata::NodeId;
use base_list::List;
use read_lexer::line::{Line, Lines};
use read_metadata::metadata::{Metadata, read_meta};
use std::alloc::{AllocError, Global};
use std::fmt::Write;

/// What is asked of metadata.
#[derive(Clone, Copy)]
pub enum Meta {
    /// A variable: its name, which parameter it is, and its type.
    Variable(u32),
    /// A location: its line, its column, its scope, and the call that it is inlined at.
    Location(u32),
    /// The file of a scope: its name, and its directory.
    File(u32),
    /// A base type: its size in bytes, and its encoding.
    BaseType(u32),
    /// The subprogram of a function.
    Subprogram(&'static str),
}

/// The lines of a text.
fn lines_of(alloc: Global, text: &str) -> Result<Lines, AllocError> {
    let mut lines: Lines = List::new(alloc);
    for line in text.split('\n') {
        lines.push(Line {
            number: 1,
            text: List::from_slice(alloc, line.as_bytes())?,
        })?;
    }
    Ok(lines)
}

/// The plain number of a node that is there.
fn number(node: Option<NodeId>) -> Option<u32> {
    node.map(|node| node.number())
}

fn push_variable(told: &mut String, metadata: &Metadata, node: NodeId) -> Result<(), AllocError> {
    let Some(found) = metadata.variable(node) else {
        return Ok(());
    };
    push_bytes(told, found.name.as_slice())?;
    write!(told, " {} {:?}", found.arg, number(found.base))
}

fn push_location(told: &mut String, metadata: &Metadata, node: NodeId) -> Result<(), AllocError> {
    let Some(found) = metadata.location(node) else {
        return Ok(());
    };
    let (scope, call) = (number(found.scope), number(found.inlined_at));
    write!(told, "{} {} {scope:?} {call:?}", found.line, found.column)
}

fn push_file(told: &mut String, metadata: &Metadata, scope: NodeId) -> Result<(), AllocError> {
    let Some(found) = metadata.file_of_scope(scope) else {
        return Ok(());
    };
    push_bytes(told, found.name.as_slice())?;
    told.push(' ')?;
    push_bytes(told, found.dir.as_slice())
}

fn push_base_type(told: &mut String, metadata: &Metadata, node: NodeId) -> Result<(), AllocError> {
    let Some(found) = metadata.base_type(node) else {
        return Ok(());
    };
    write!(told, "{} {}", found.size, found.encoding)
}

/// Appends what the metadata of a text says, and nothing where no line says it.
pub fn push_meta(
    alloc: Global,
    told: &mut String,
    asked: Meta,
    text: &str,
) -> Result<(), AllocError> {
    let metadata = read_meta(alloc, &lines_of(alloc, text)?)?;
    match asked {
        Meta::Variable(node) => push_variable(told, &metadata, NodeId(node)),
        Meta::Location(node) => push_location(told, &metadata, NodeId(node)),
        Meta::File(scope) => push_file(told, &metadata, NodeId(scope)),
        Meta::BaseType(node) => push_base_type(told, &metadata, NodeId(node)),
        Meta::Subprogram(name) => {
            let name = List::from_slice(alloc, name.as_bytes())?;
            write!(told, "{:?}", number(metadata.subprogram_of(&name)))
        }
    }
}
