//! The node with given fields, by its kind: nodes that describe code and variables.

ghost use Rattle.std.specs.Prelude.{◌≡◌, IfOk};
ghost use Rattle.read_debug_nodes.specs.Kind.{
  file_of,
  location_of,
  unit_of,
  block_scope_of,
  variable_of,
  subprogram_of,
  scope_of_kind,
  node_of_kind,
};

use crate::codes::language_code;
use crate::field::NodeField;
use crate::node::{DebugNode, DebugSubprogram, DebugVariable};
use crate::types::type_of_kind;
use crate::value::{
    has_flag, line_at, node_at, node_or_none, number_at, text_at, text_or_none, word_or_none,
};
use base_ids::metadata::NodeId;
use read_metadata::node::FileNode;
use read_metadata::text::text_value;
use std::alloc::{AllocError, Global};

/// The file with these fields.
#[tactic(auto, unfolding(crate::specs::Kind::file_of))]
fn file_of(
    alloc: Global,
    line: &[u8],
    fields: &[NodeField],
) -> Result<Option<DebugNode>, AllocError>
    ensures { IfOk result (λ node. node ≡ file_of line.now fields.now) }
{
    let Some(name) = text_at(line, fields, b"filename") else {
        return Ok(None);
    };
    let Some(dir) = text_at(line, fields, b"directory") else {
        return Ok(None);
    };
    let name = text_value(alloc, name)?;
    let dir = text_value(alloc, dir)?;
    Ok(Some(DebugNode::File(FileNode { name, dir })))
}

/// The source location with these fields. A line is required.
#[tactic(auto, unfolding(crate::specs::Kind::location_of))]
fn location_of(line: &[u8], fields: &[NodeField]) -> Option<DebugNode>
    ensures { result ≡ location_of line.now fields.now }
{
    let _ = number_at(line, fields, b"line")??;
    let _ = number_at(line, fields, b"column")?;
    let _ = node_at(line, fields, b"scope")?;
    let _ = node_at(line, fields, b"inlinedAt")?;
    Some(DebugNode::Location)
}

/// The unit with these fields.
#[tactic(auto, unfolding(crate::specs::Kind::unit_of))]
fn unit_of(line: &[u8], fields: &[NodeField]) -> DebugNode
    ensures { result ≡ unit_of line.now fields.now }
{
    DebugNode::Unit(language_code(word_or_none(line, fields, b"language")))
}

/// The scope of the lexical block with these fields, if its file is readable.
#[tactic(auto, unfolding(crate::specs::Kind::block_scope_of))]
fn block_scope_of(line: &[u8], fields: &[NodeField]) -> Option<Option<NodeId>>
    ensures { result ≡ block_scope_of line.now fields.now }
{
    let _ = node_at(line, fields, b"file")?;
    Some(node_or_none(line, fields, b"scope"))
}

/// The variable with these fields.
#[tactic(auto, unfolding(crate::specs::Kind::variable_of))]
fn variable_of(
    alloc: Global,
    line: &[u8],
    fields: &[NodeField],
) -> Result<Option<DebugNode>, AllocError>
    ensures { IfOk result (λ node. node ≡ variable_of line.now fields.now) }
{
    let Some(name) = text_at(line, fields, b"name") else {
        return Ok(None);
    };
    let Some(arg) = number_at(line, fields, b"arg") else {
        return Ok(None);
    };
    let Some(type_node) = node_at(line, fields, b"type") else {
        return Ok(None);
    };
    let name = text_value(alloc, name)?;
    Ok(Some(DebugNode::Variable(DebugVariable {
        name,
        arg: arg.unwrap_or(0),
        scope: node_or_none(line, fields, b"scope"),
        file: node_or_none(line, fields, b"file"),
        line: line_at(line, fields, b"line"),
        type_node,
    })))
}

/// The subprogram with these fields, if its file is readable.
#[tactic(auto, unfolding(crate::specs::Kind::subprogram_of))]
fn subprogram_of(
    alloc: Global,
    line: &[u8],
    fields: &[NodeField],
) -> Result<Option<DebugNode>, AllocError>
    ensures { IfOk result (λ node. node ≡ subprogram_of line.now fields.now) }
{
    let Some(file) = node_at(line, fields, b"file") else {
        return Ok(None);
    };
    let name = text_value(alloc, text_or_none(line, fields, b"name"))?;
    let linkage_name = text_value(alloc, text_or_none(line, fields, b"linkageName"))?;
    Ok(Some(DebugNode::Subprogram(DebugSubprogram {
        name,
        linkage_name,
        file,
        line: line_at(line, fields, b"line"),
        scope_line: line_at(line, fields, b"scopeLine"),
        type_node: node_or_none(line, fields, b"type"),
        prototyped: has_flag(line, fields, b"flags", b"DIFlagPrototyped"),
        local: has_flag(line, fields, b"spFlags", b"DISPFlagLocalToUnit"),
    })))
}

/// The node of one of the kinds of files, units, code and source locations with these fields.
#[tactic(auto, unfolding(crate::specs::Kind::scope_of_kind))]
fn scope_of_kind(
    alloc: Global,
    line: &[u8],
    kind: &[u8],
    fields: &[NodeField],
) -> Result<Option<DebugNode>, AllocError>
    ensures { IfOk result (λ node. node ≡ scope_of_kind line.now kind.now fields.now) }
{
    if kind == b"!DILocation".as_slice() {
        Ok(location_of(line, fields))
    } else if kind == b"!DIFile".as_slice() {
        file_of(alloc, line, fields)
    } else if kind == b"!DISubprogram".as_slice() {
        subprogram_of(alloc, line, fields)
    } else if kind == b"!DILexicalBlock".as_slice() {
        Ok(block_scope_of(line, fields).map(DebugNode::Block))
    } else if kind == b"!DILexicalBlockFile".as_slice() {
        Ok(block_scope_of(line, fields).map(DebugNode::FileBlock))
    } else if kind == b"!DICompileUnit".as_slice() {
        Ok(Some(unit_of(line, fields)))
    } else {
        Ok(None)
    }
}

/// The node of this kind with these fields; `None` if nodes of the kind aren't kept or the fields make the line
/// unreadable.
#[tactic(auto, unfolding(crate::specs::Kind::node_of_kind))]
pub(crate) fn node_of_kind(
    alloc: Global,
    line: &[u8],
    kind: &[u8],
    fields: &[NodeField],
) -> Result<Option<DebugNode>, AllocError>
    ensures { IfOk result (λ node. node ≡ node_of_kind line.now kind.now fields.now) }
{
    if kind == b"!DILocalVariable".as_slice() {
        return variable_of(alloc, line, fields);
    }
    match type_of_kind(alloc, line, kind, fields)? {
        Some(node) => Ok(Some(node)),
        None => scope_of_kind(alloc, line, kind, fields),
    }
}
