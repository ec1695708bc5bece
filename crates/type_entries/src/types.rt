//! The entries of a type.

ghost use Rattle.std.specs.Prelude.{◌≡◌, ◌++◌, ◌∷◌, [], IfOk, OnOk};
ghost use Rattle.type_nodes.specs.declared.shape.Shape.TheVariants.{
  Declaration,
  Pointer,
  Qualifier,
  Subroutine,
  Typedef,
};
ghost use Rattle.type_entries.specs.Entries.{at, base_item, name_attribute, shape_items};
ghost use Rattle.dwarf_info.specs.Standard.{DW_AT_byte_size};
ghost use Rattle.dwarf_entry.specs.declared.tree.Value.TheVariants.{Unsigned};

use crate::constants::*;
use crate::members::*;
use crate::table::{TypeTable, push_type};
use dwarf_entry::tree::{Attributes, Tree, TreeItem, Value};
use dwarf_info::constants::{DW_AT_byte_size, DW_AT_encoding, DW_AT_name, DW_TAG_base_type};
use std::alloc::{AllocError, Global};
use type_nodes::shape::{Name, Shape};

/// Appends the items of a type. The error is out of memory.
pub fn push_shape(
    tree: &mut Tree,
    alloc: Global,
    t: &TypeTable,
    shape: &Shape,
) -> Result<(), AllocError>
    ensures { OnOk result (tree.new ≡ tree.old ++ shape_items t.now shape.now) }
{
    match shape {
        Shape::Base(name, size, encoding) => push_base(tree, alloc, name, *size, *encoding),
        Shape::Pointer(tag, to) => push_pointer(tree, alloc, t, *tag, *to),
        Shape::Qualifier(tag, to) => push_qualifier(tree, alloc, t, *tag, *to),
        Shape::Typedef(name, to) => push_typedef(tree, alloc, t, name, *to),
        Shape::Declaration(tag, name) => push_declaration(tree, alloc, t, *tag, name),
        Shape::Record(tag, name, size, members) => {
            push_entry(tree, *tag, true, sized(alloc, name, *size)?)?;
            push_members(tree, alloc, t, *size, members.as_slice())?;
            tree.push(TreeItem::Null)
        }
        Shape::Enumeration(name, size, to, enumerators) => {
            let mut attributes = sized(alloc, name, *size)?;
            push_type(&mut attributes, t, *to)?;
            push_entry(tree, DW_TAG_enumeration_type, true, attributes)?;
            push_enumerators(tree, alloc, enumerators.as_slice())?;
            tree.push(TreeItem::Null)
        }
        Shape::Array(to, counts) => {
            let mut attributes = Attributes::new(alloc);
            push_type(&mut attributes, t, Some(*to))?;
            push_entry(tree, DW_TAG_array_type, true, attributes)?;
            push_subranges(tree, alloc, counts.as_slice())?;
            tree.push(TreeItem::Null)
        }
        Shape::Subroutine(to, parameters, more) => {
            push_subroutine(tree, alloc, t, *to, parameters.as_slice(), *more)
        }
    }
}

/// The attributes of a name, if there is one, and of a size.
fn sized(alloc: Global, name: &Name, size: u64) -> Result<Attributes, AllocError>
    ensures { IfOk result (λ attributes. attributes
        ≡ name_attribute name.now ++ at DW_AT_byte_size (Unsigned size) ∷ []) }
{
    let mut attributes = named(alloc, name)?;
    attributes.push(at(u16::from(DW_AT_byte_size), Value::Unsigned(size)))?;
    Ok(attributes)
}

/// Appends a base type.
pub(crate) fn push_base(
    tree: &mut Tree,
    alloc: Global,
    name: &Name,
    size: u8,
    encoding: u8,
) -> Result<(), AllocError>
    ensures { OnOk result (tree.new ≡ tree.old ++ base_item name.now size encoding ∷ []) }
{
    let mut attributes = Attributes::new(alloc);
    attributes.push(at(u16::from(DW_AT_name), Value::Text(name.copy()?)))?;
    attributes.push(at(u16::from(DW_AT_byte_size), Value::Data1(size)))?;
    attributes.push(at(u16::from(DW_AT_encoding), Value::Data1(encoding)))?;
    push_entry(tree, u16::from(DW_TAG_base_type), false, attributes)
}

/// Appends a pointer.
fn push_pointer(
    tree: &mut Tree,
    alloc: Global,
    t: &TypeTable,
    tag: u16,
    to: Option<u32>,
) -> Result<(), AllocError>
    ensures { OnOk result (tree.new ≡ tree.old ++ shape_items t.now (Pointer tag to)) }
{
    let mut attributes = Attributes::new(alloc);
    attributes.push(at(u16::from(DW_AT_byte_size), Value::Data1(8)))?;
    push_type(&mut attributes, t, to)?;
    push_entry(tree, tag, false, attributes)
}

/// Appends a type with a qualifier.
fn push_qualifier(
    tree: &mut Tree,
    alloc: Global,
    t: &TypeTable,
    tag: u16,
    to: Option<u32>,
) -> Result<(), AllocError>
    ensures { OnOk result (tree.new ≡ tree.old ++ shape_items t.now (Qualifier tag to)) }
{
    let mut attributes = Attributes::new(alloc);
    push_type(&mut attributes, t, to)?;
    push_entry(tree, tag, false, attributes)
}

/// Appends another name for a type.
fn push_typedef(
    tree: &mut Tree,
    alloc: Global,
    t: &TypeTable,
    name: &Name,
    to: Option<u32>,
) -> Result<(), AllocError>
    ensures { OnOk result (tree.new ≡ tree.old ++ shape_items t.now (Typedef name.now to)) }
{
    let mut attributes = named(alloc, name)?;
    push_type(&mut attributes, t, to)?;
    push_entry(tree, DW_TAG_typedef, false, attributes)
}

/// Appends a declaration.
fn push_declaration(
    tree: &mut Tree,
    alloc: Global,
    t: &TypeTable,
    tag: u16,
    name: &Name,
) -> Result<(), AllocError>
    ensures { OnOk result (tree.new ≡ tree.old ++ shape_items t.now (Declaration tag name.now)) }
{
    let mut attributes = named(alloc, name)?;
    attributes.push(at(DW_AT_declaration, Value::Present))?;
    push_entry(tree, tag, false, attributes)
}

/// Appends a function's type.
fn push_subroutine(
    tree: &mut Tree,
    alloc: Global,
    t: &TypeTable,
    to: Option<u32>,
    parameters: &[u32],
    more: bool,
) -> Result<(), AllocError>
    ensures { OnOk result (tree.new ≡ tree.old ++ shape_items t.now (Subroutine to parameters.now more)) }
{
    let mut attributes = Attributes::new(alloc);
    attributes.push(at(DW_AT_prototyped, Value::Flag(true)))?;
    push_type(&mut attributes, t, to)?;
    push_entry(tree, DW_TAG_subroutine_type, true, attributes)?;
    push_parameters(tree, alloc, t, parameters)?;
    if more {
        push_entry(
            tree,
            DW_TAG_unspecified_parameters,
            false,
            Attributes::new(alloc),
        )?;
    }
    tree.push(TreeItem::Null)
}
