//! What nodes say.

use crate::program::{metadata_of, push_name, push_number};
use crate::rows::{NODES, TEXT};
use base_ids::metadata::NodeId;
use read_debug_nodes::node::{DebugNode, DebugSubprogram, DebugVariable};
use std::alloc::{AllocError, Global};
use std::fmt::Write;
use std::test::Fail;

/// Appends the number of a node.
fn push_node(told: &mut String, node: Option<NodeId>) -> Result<(), AllocError> {
    push_number(told, node.map(|node| u64::from(node.number())), "-")
}

fn push_subprogram(told: &mut String, s: &DebugSubprogram) -> Result<(), AllocError> {
    write!(told, "subprogram")?;
    push_name(told, s.name.as_slice())?;
    push_name(told, s.linkage_name.as_slice())?;
    push_node(told, s.file)?;
    write!(told, " {} {}", s.line, s.scope_line)?;
    push_node(told, s.type_node)?;
    write!(told, " {} {}", s.prototyped, s.local)
}

fn push_variable(told: &mut String, v: &DebugVariable) -> Result<(), AllocError> {
    write!(told, "variable")?;
    push_name(told, v.name.as_slice())?;
    write!(told, " {}", v.arg)?;
    push_node(told, v.scope)?;
    push_node(told, v.file)?;
    write!(told, " {}", v.line)?;
    push_node(told, v.type_node)
}

/// Appends what a node says.
fn push_told(told: &mut String, node: Option<&DebugNode>) -> Result<(), AllocError> {
    match node {
        None => write!(told, "none"),
        Some(DebugNode::Unit(code)) => {
            write!(told, "unit")?;
            push_number(told, code.map(u64::from), "-")
        }
        Some(DebugNode::File(file)) => {
            write!(told, "file")?;
            push_name(told, file.name.as_slice())?;
            push_name(told, file.dir.as_slice())
        }
        Some(DebugNode::Location) => write!(told, "location"),
        Some(DebugNode::Subprogram(s)) => push_subprogram(told, s),
        Some(DebugNode::Block(scope)) => {
            write!(told, "block")?;
            push_node(told, *scope)
        }
        Some(DebugNode::FileBlock(scope)) => {
            write!(told, "file block")?;
            push_node(told, *scope)
        }
        Some(DebugNode::Variable(v)) => push_variable(told, v),
        Some(DebugNode::Tuple(elements)) => {
            write!(told, "tuple")?;
            for element in elements.as_slice() {
                push_node(told, *element)?;
            }
            Ok(())
        }
        Some(_) => write!(told, "type"),
    }
}

/// How many of the rows are told as they say.
fn right_rows(alloc: Global) -> Result<usize, AllocError> {
    let metadata = metadata_of(alloc, TEXT)?;
    let mut right = 0usize;
    for (node, row) in NODES {
        let mut told = String::new(alloc);
        push_told(&mut told, metadata.node(NodeId(*node)))?;
        if told.as_str() == *row {
            right = right.saturating_add(1);
        }
    }
    Ok(right)
}

#[test]
fn nodes_are_read(rt: HostRuntime) -> Result<(), Fail> {
    let right = right_rows(rt.alloc())?;
    assert!(rt; right == NODES.len());
    let metadata = metadata_of(rt.alloc(), TEXT)?;
    let numbers = metadata.numbers(rt.alloc())?;
    assert!(rt; metadata.language() == 0x1d && numbers.len() == 40);
    Ok(())
}
