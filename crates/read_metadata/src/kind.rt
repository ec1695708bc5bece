//! The node with given fields, by its kind.

ghost use Rattle.std.specs.Prelude.{◌≡◌, IfOk};
ghost use Rattle.read_metadata.specs.Kind.{
  is_block,
  size_in_bytes,
  variable_of,
  location_of,
  file_of,
  base_type_of,
  subprogram_of,
  block_of,
  node_of_kind,
};

use crate::encoding::encoding_code;
use crate::field::{Field, node_at, number_at, text_at, word_at};
use crate::node::{
    BaseTypeNode, BlockNode, FileNode, LocationNode, Node, SubprogramNode, VariableNode,
};
use crate::text::text_value;
use std::alloc::{AllocError, Global};

/// Whether nodes of a kind are lexical blocks.
#[tactic(auto, unfolding(crate::specs::Kind::is_block))]
fn is_block(kind: &[u8]) -> bool
    ensures { result ≡ is_block kind.now }
{
    kind == b"!DILexicalBlock".as_slice() || kind == b"!DILexicalBlockFile".as_slice()
}

/// The greatest size of a base type in bits: 255 bytes.
const MAX_BITS: u32 = 2040;

/// A base type's size in bytes, if its size in bits is a multiple of 8 from 8 to the greatest.
fn size_in_bytes(bits: Option<u32>) -> Option<u32>
    ensures { result ≡ size_in_bytes bits }
{
    match bits {
        Some(bits) if bits % 8 == 0 && 8 <= bits && bits <= MAX_BITS => Some(bits / 8),
        _ => None,
    }
}

/// The variable with these fields.
#[tactic(auto, unfolding(crate::specs::Kind::variable_of))]
fn variable_of(alloc: Global, line: &[u8], fields: &[Field]) -> Result<Option<Node>, AllocError>
    ensures { IfOk result (λ node. node ≡ variable_of line.now fields.now) }
{
    let Some(name) = text_at(line, fields, b"name") else {
        return Ok(None);
    };
    let Some(arg) = number_at(line, fields, b"arg") else {
        return Ok(None);
    };
    let Some(base) = node_at(line, fields, b"type") else {
        return Ok(None);
    };
    Ok(Some(Node::Variable(VariableNode {
        name: text_value(alloc, name)?,
        arg: arg.unwrap_or(0),
        base,
    })))
}

/// The source location with these fields. A line is required.
#[tactic(auto, unfolding(crate::specs::Kind::location_of))]
fn location_of(line: &[u8], fields: &[Field]) -> Option<Node>
    ensures { result ≡ location_of line.now fields.now }
{
    let number = number_at(line, fields, b"line")??;
    let column = number_at(line, fields, b"column")?;
    let scope = node_at(line, fields, b"scope")?;
    let inlined_at = node_at(line, fields, b"inlinedAt")?;
    Some(Node::Location(LocationNode {
        line: number,
        column: column.unwrap_or(0),
        scope,
        inlined_at,
    }))
}

/// The file with these fields.
#[tactic(auto, unfolding(crate::specs::Kind::file_of))]
fn file_of(alloc: Global, line: &[u8], fields: &[Field]) -> Result<Option<Node>, AllocError>
    ensures { IfOk result (λ node. node ≡ file_of line.now fields.now) }
{
    let Some(name) = text_at(line, fields, b"filename") else {
        return Ok(None);
    };
    let Some(dir) = text_at(line, fields, b"directory") else {
        return Ok(None);
    };
    Ok(Some(Node::File(FileNode {
        name: text_value(alloc, name)?,
        dir: text_value(alloc, dir)?,
    })))
}

/// The base type with these fields. A supported size and a supported encoding are required.
#[tactic(auto, unfolding(crate::specs::Kind::base_type_of))]
fn base_type_of(alloc: Global, line: &[u8], fields: &[Field]) -> Result<Option<Node>, AllocError>
    ensures { IfOk result (λ node. node ≡ base_type_of line.now fields.now) }
{
    let Some(name) = text_at(line, fields, b"name") else {
        return Ok(None);
    };
    let Some(bits) = number_at(line, fields, b"size") else {
        return Ok(None);
    };
    let Some(size) = size_in_bytes(bits) else {
        return Ok(None);
    };
    let Some(word) = word_at(line, fields, b"encoding") else {
        return Ok(None);
    };
    let Some(encoding) = encoding_code(word) else {
        return Ok(None);
    };
    Ok(Some(Node::BaseType(BaseTypeNode {
        name: text_value(alloc, name)?,
        size,
        encoding,
    })))
}

/// The subprogram with these fields. Its name is empty if it isn't readable.
#[tactic(auto, unfolding(crate::specs::Kind::subprogram_of))]
fn subprogram_of(alloc: Global, line: &[u8], fields: &[Field]) -> Result<Option<Node>, AllocError>
    ensures { IfOk result (λ node. node ≡ subprogram_of line.now fields.now) }
{
    let Some(file) = node_at(line, fields, b"file") else {
        return Ok(None);
    };
    let name = match text_at(line, fields, b"name") {
        Some(name) => text_value(alloc, name)?,
        None => text_value(alloc, &line[..0])?,
    };
    Ok(Some(Node::Subprogram(SubprogramNode { name, file })))
}

/// The lexical block with these fields. It has no scope if its scope isn't readable.
#[tactic(auto, unfolding(crate::specs::Kind::block_of))]
fn block_of(line: &[u8], fields: &[Field]) -> Option<Node>
    ensures { result ≡ block_of line.now fields.now }
{
    let file = node_at(line, fields, b"file")?;
    let scope = node_at(line, fields, b"scope").unwrap_or(None);
    Some(Node::Block(BlockNode { scope, file }))
}

/// The node of this kind with these fields; `None` if nodes of the kind aren't kept or the fields make the line
/// unreadable.
#[tactic(auto, unfolding(crate::specs::Kind::node_of_kind))]
pub fn node_of_kind(
    alloc: Global,
    line: &[u8],
    kind: &[u8],
    fields: &[Field],
) -> Result<Option<Node>, AllocError>
    ensures { IfOk result (λ node. node ≡ node_of_kind line.now kind.now fields.now) }
{
    if kind == b"!DILocalVariable".as_slice() {
        variable_of(alloc, line, fields)
    } else if kind == b"!DILocation".as_slice() {
        Ok(location_of(line, fields))
    } else if kind == b"!DIFile".as_slice() {
        file_of(alloc, line, fields)
    } else if kind == b"!DIBasicType".as_slice() {
        base_type_of(alloc, line, fields)
    } else if kind == b"!DISubprogram".as_slice() {
        subprogram_of(alloc, line, fields)
    } else if is_block(kind) {
        Ok(block_of(line, fields))
    } else {
        Ok(None)
    }
}
