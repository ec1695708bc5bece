//! What a type is, from its node.

ghost use Rattle.std.specs.Prelude.{◌≡◌, IfOk};
ghost use Rattle.std.specs.Option.{option_and_then, option_copied};
ghost use Rattle.read_debug_nodes.specs.Metadata.{node_at};
ghost use Rattle.read_types.specs.Shapes.{
  array_shape,
  base_shape,
  composite_shape,
  derived_shape,
  enumeration_shape,
  record_shape,
  shape_at,
  shape_of,
  subroutine_shape,
};

use crate::indices::TypeNodes;
use crate::members::{
    counts_at, elements_at, ends_open, enumerators_at, members_at, parameters_in,
};
use crate::tags::*;
use base_list::List;
use read_debug_nodes::metadata::DebugMetadata;
use read_debug_nodes::node::{
    CompositeForm, CompositeType, DebugBaseType, DebugNode, DerivedForm, DerivedType,
};
use read_debug_nodes::read_metadata_crate::rv64_instr_crate::base_ids_crate::metadata::NodeId;
use std::alloc::{AllocError, Global};
use type_nodes::shape::Shape;

/// A base type.
fn base_shape(t: &DebugBaseType) -> Result<Shape, AllocError>
    ensures { IfOk result (λ shape. shape ≡ base_shape t.now) }
{
    let name = t.name.copy()?;
    Ok(Shape::Base(name, t.size, t.encoding))
}

/// A type that is made from another one.
fn derived_shape(nodes: &TypeNodes, d: &DerivedType) -> Result<Option<Shape>, AllocError>
    ensures { IfOk result (λ shape. shape ≡ derived_shape nodes.now d.now) }
{
    let base = nodes.index_of(d.base);
    match d.form {
        DerivedForm::Pointer => Ok(Some(Shape::Pointer(DW_TAG_pointer_type, base))),
        DerivedForm::Reference => Ok(Some(Shape::Pointer(DW_TAG_reference_type, base))),
        DerivedForm::RvalueReference => {
            Ok(Some(Shape::Pointer(DW_TAG_rvalue_reference_type, base)))
        }
        DerivedForm::Const => Ok(Some(Shape::Qualifier(DW_TAG_const_type, base))),
        DerivedForm::Volatile => Ok(Some(Shape::Qualifier(DW_TAG_volatile_type, base))),
        DerivedForm::Restrict => Ok(Some(Shape::Qualifier(DW_TAG_restrict_type, base))),
        DerivedForm::Atomic => Ok(Some(Shape::Qualifier(DW_TAG_atomic_type, base))),
        DerivedForm::Typedef => {
            let name = d.name.copy()?;
            Ok(Some(Shape::Typedef(name, base)))
        }
        DerivedForm::Member => Ok(None),
        DerivedForm::Other => Ok(None),
    }
}

/// A record with this tag, or its declaration.
fn record_shape(
    alloc: Global,
    m: &DebugMetadata,
    nodes: &TypeNodes,
    tag: u16,
    c: &CompositeType,
) -> Result<Option<Shape>, AllocError>
    ensures { IfOk result (λ shape. shape ≡ record_shape m.now nodes.now tag c.now) }
{
    if c.size % 8 != 0 {
        return Ok(None);
    }
    let name = c.name.copy()?;
    if c.declaration {
        return Ok(Some(Shape::Declaration(tag, name)));
    }
    let members = members_at(alloc, m, nodes, c.elements)?;
    Ok(Some(Shape::Record(tag, name, c.size / 8, members)))
}

/// An enumeration, or its declaration.
fn enumeration_shape(
    alloc: Global,
    m: &DebugMetadata,
    nodes: &TypeNodes,
    c: &CompositeType,
) -> Result<Option<Shape>, AllocError>
    ensures { IfOk result (λ shape. shape ≡ enumeration_shape m.now nodes.now c.now) }
{
    if c.size % 8 != 0 {
        return Ok(None);
    }
    let name = c.name.copy()?;
    if c.declaration {
        return Ok(Some(Shape::Declaration(DW_TAG_enumeration_type, name)));
    }
    let enumerators = enumerators_at(alloc, m, c.elements)?;
    let base = nodes.index_of(c.base);
    Ok(Some(Shape::Enumeration(name, c.size / 8, base, enumerators)))
}

/// An array.
fn array_shape(
    alloc: Global,
    m: &DebugMetadata,
    nodes: &TypeNodes,
    c: &CompositeType,
) -> Result<Option<Shape>, AllocError>
    ensures { IfOk result (λ shape. shape ≡ array_shape m.now nodes.now c.now) }
{
    if c.vector {
        return Ok(None);
    }
    match counts_at(alloc, m, c.elements)? {
        Some(counts) => Ok(Some(Shape::Array(nodes.index_or_past(c.base), counts))),
        None => Ok(None),
    }
}

/// A type with parts.
fn composite_shape(
    alloc: Global,
    m: &DebugMetadata,
    nodes: &TypeNodes,
    c: &CompositeType,
) -> Result<Option<Shape>, AllocError>
    ensures { IfOk result (λ shape. shape ≡ composite_shape m.now nodes.now c.now) }
{
    match c.form {
        CompositeForm::Structure => record_shape(alloc, m, nodes, DW_TAG_structure_type, c),
        CompositeForm::Union => record_shape(alloc, m, nodes, DW_TAG_union_type, c),
        CompositeForm::Class => record_shape(alloc, m, nodes, DW_TAG_class_type, c),
        CompositeForm::Enumeration => enumeration_shape(alloc, m, nodes, c),
        CompositeForm::Array => array_shape(alloc, m, nodes, c),
        CompositeForm::Other => Ok(None),
    }
}

/// A function's type, by the tuple of the types of its result and its parameters.
fn subroutine_shape(
    alloc: Global,
    m: &DebugMetadata,
    nodes: &TypeNodes,
    tuple: Option<NodeId>,
) -> Result<Shape, AllocError>
    ensures { IfOk result (λ shape. shape ≡ subroutine_shape m.now nodes.now tuple) }
{
    let Some(elements) = elements_at(m, tuple) else {
        return Ok(Shape::Subroutine(None, List::new(alloc), false));
    };
    match elements.as_slice() {
        [] => Ok(Shape::Subroutine(None, List::new(alloc), false)),
        [first, parameters @ ..] => {
            let indices = parameters_in(alloc, nodes, parameters)?;
            let base = nodes.index_of(*first);
            Ok(Shape::Subroutine(base, indices, ends_open(parameters)))
        }
    }
}

/// The type that a node is, if it is one.
fn shape_of(
    alloc: Global,
    m: &DebugMetadata,
    nodes: &TypeNodes,
    node: &DebugNode,
) -> Result<Option<Shape>, AllocError>
    ensures { IfOk result (λ shape. shape ≡ shape_of m.now nodes.now node.now) }
{
    match node {
        DebugNode::BaseType(t) => Ok(Some(base_shape(t)?)),
        DebugNode::Derived(d) => derived_shape(nodes, d),
        DebugNode::Composite(c) => composite_shape(alloc, m, nodes, c),
        DebugNode::Subroutine(tuple) => Ok(Some(subroutine_shape(alloc, m, nodes, *tuple)?)),
        _ => Ok(None),
    }
}

/// The type that the node with a number is, if it is one.
pub(crate) fn shape_at(
    alloc: Global,
    m: &DebugMetadata,
    nodes: &TypeNodes,
    number: NodeId,
) -> Result<Option<Shape>, AllocError>
    ensures { IfOk result (λ shape. shape ≡ shape_at m.now nodes.now number) }
{
    match m.node(number) {
        Some(node) => shape_of(alloc, m, nodes, node),
        None => Ok(None),
    }
}
