//! The node with given fields, by its kind: nodes that describe types.

ghost use Rattle.std.specs.Prelude.{◌≡◌, IfOk};
ghost use Rattle.read_debug_nodes.specs.Types.{
  size_in_bytes,
  base_type_of,
  derived_of,
  composite_of,
  subroutine_of,
  enumerator_of,
  subrange_of,
  type_of_kind,
};

use crate::codes::{composite_form, derived_form, encoding_code};
use crate::field::NodeField;
use crate::node::{
    CompositeType, DebugBaseType, DebugNode, DerivedType, EnumeratorNode, SubrangeNode,
};
use crate::value::{
    count_at, enumerator_at, has_flag, node_at, number_at, size_at, text_at, word_at,
};
use read_metadata::text::text_value;
use std::alloc::{AllocError, Global};

/// The greatest size of a base type in bits: 255 bytes.
const MAX_BITS: u32 = 2040;

/// A base type's size in bytes, if its size in bits is a multiple of 8 from 8 to the greatest.
fn size_in_bytes(bits: Option<u32>) -> Option<u8>
    ensures { result ≡ size_in_bytes bits }
{
    match bits {
        Some(bits) if bits % 8 == 0 && 8 <= bits && bits <= MAX_BITS => Some((bits / 8) as u8),
        _ => None,
    }
}

/// The base type with these fields. A supported size and a supported encoding are required.
#[tactic(auto, unfolding(crate::specs::Types::base_type_of))]
fn base_type_of(
    alloc: Global,
    line: &[u8],
    fields: &[NodeField],
) -> Result<Option<DebugNode>, AllocError>
    ensures { IfOk result (λ node. node ≡ base_type_of line.now fields.now) }
{
    let Some(name) = text_at(line, fields, b"name") else {
        return Ok(None);
    };
    let Some(bits) = number_at(line, fields, b"size") else {
        return Ok(None);
    };
    let Some(size) = size_in_bytes(bits) else {
        return Ok(None);
    };
    let Some(word) = word_at(line, fields, b"encoding") else {
        return Ok(None);
    };
    let Some(encoding) = encoding_code(word) else {
        return Ok(None);
    };
    let name = text_value(alloc, name)?;
    Ok(Some(DebugNode::BaseType(DebugBaseType {
        name,
        size,
        encoding,
    })))
}

/// The derived type with these fields.
#[tactic(auto, unfolding(crate::specs::Types::derived_of))]
fn derived_of(
    alloc: Global,
    line: &[u8],
    fields: &[NodeField],
) -> Result<Option<DebugNode>, AllocError>
    ensures { IfOk result (λ node. node ≡ derived_of line.now fields.now) }
{
    let Some(tag) = word_at(line, fields, b"tag") else {
        return Ok(None);
    };
    let Some(name) = text_at(line, fields, b"name") else {
        return Ok(None);
    };
    let Some(base) = node_at(line, fields, b"baseType") else {
        return Ok(None);
    };
    let Some(size) = size_at(line, fields, b"size") else {
        return Ok(None);
    };
    let Some(offset) = size_at(line, fields, b"offset") else {
        return Ok(None);
    };
    let name = text_value(alloc, name)?;
    Ok(Some(DebugNode::Derived(DerivedType {
        form: derived_form(tag),
        name,
        base,
        size,
        offset,
        bit_field: has_flag(line, fields, b"flags", b"DIFlagBitField"),
        in_no_record: has_flag(line, fields, b"flags", b"DIFlagStaticMember"),
    })))
}

/// The composite type with these fields.
#[tactic(auto, unfolding(crate::specs::Types::composite_of))]
fn composite_of(
    alloc: Global,
    line: &[u8],
    fields: &[NodeField],
) -> Result<Option<DebugNode>, AllocError>
    ensures { IfOk result (λ node. node ≡ composite_of line.now fields.now) }
{
    let Some(tag) = word_at(line, fields, b"tag") else {
        return Ok(None);
    };
    let Some(name) = text_at(line, fields, b"name") else {
        return Ok(None);
    };
    let Some(base) = node_at(line, fields, b"baseType") else {
        return Ok(None);
    };
    let Some(size) = size_at(line, fields, b"size") else {
        return Ok(None);
    };
    let Some(elements) = node_at(line, fields, b"elements") else {
        return Ok(None);
    };
    let name = text_value(alloc, name)?;
    Ok(Some(DebugNode::Composite(CompositeType {
        form: composite_form(tag),
        name,
        base,
        size,
        elements,
        declaration: has_flag(line, fields, b"flags", b"DIFlagFwdDecl"),
        vector: has_flag(line, fields, b"flags", b"DIFlagVector"),
    })))
}

/// The subroutine type with these fields.
#[tactic(auto, unfolding(crate::specs::Types::subroutine_of))]
fn subroutine_of(line: &[u8], fields: &[NodeField]) -> Option<DebugNode>
    ensures { result ≡ subroutine_of line.now fields.now }
{
    Some(DebugNode::Subroutine(node_at(line, fields, b"types")?))
}

/// The enumerator with these fields.
#[tactic(auto, unfolding(crate::specs::Types::enumerator_of))]
fn enumerator_of(
    alloc: Global,
    line: &[u8],
    fields: &[NodeField],
) -> Result<Option<DebugNode>, AllocError>
    ensures { IfOk result (λ node. node ≡ enumerator_of line.now fields.now) }
{
    let Some(name) = text_at(line, fields, b"name") else {
        return Ok(None);
    };
    let Some(value) = enumerator_at(line, fields, b"value") else {
        return Ok(None);
    };
    let name = text_value(alloc, name)?;
    Ok(Some(DebugNode::Enumerator(EnumeratorNode {
        name,
        value: value.value,
        negative: value.negative,
    })))
}

/// The dimension of an array with these fields.
#[tactic(auto, unfolding(crate::specs::Types::subrange_of))]
fn subrange_of(line: &[u8], fields: &[NodeField]) -> Option<DebugNode>
    ensures { result ≡ subrange_of line.now fields.now }
{
    let lower = size_at(line, fields, b"lowerBound")?;
    let count = count_at(line, fields, b"count");
    Some(DebugNode::Subrange(SubrangeNode { lower, count }))
}

/// The node of one of the kinds of types with these fields.
#[tactic(auto, unfolding(crate::specs::Types::type_of_kind))]
pub(crate) fn type_of_kind(
    alloc: Global,
    line: &[u8],
    kind: &[u8],
    fields: &[NodeField],
) -> Result<Option<DebugNode>, AllocError>
    ensures { IfOk result (λ node. node ≡ type_of_kind line.now kind.now fields.now) }
{
    if kind == b"!DIDerivedType".as_slice() {
        derived_of(alloc, line, fields)
    } else if kind == b"!DICompositeType".as_slice() {
        composite_of(alloc, line, fields)
    } else if kind == b"!DIBasicType".as_slice() {
        base_type_of(alloc, line, fields)
    } else if kind == b"!DISubroutineType".as_slice() {
        Ok(subroutine_of(line, fields))
    } else if kind == b"!DIEnumerator".as_slice() {
        enumerator_of(alloc, line, fields)
    } else if kind == b"!DISubrange".as_slice() {
        Ok(subrange_of(line, fields))
    } else {
        Ok(None)
    }
}
