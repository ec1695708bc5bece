//! The entries inside the entry of a type.

ghost use Rattle.std.specs.Prelude.{◌≡◌, ◌++◌, ◌∷◌, [], IfOk, OnOk, map};
ghost use Rattle.std.specs.List.{filter};
ghost use Rattle.type_entries.specs.Entries.{
  at,
  entry,
  enumerator_item,
  is_told,
  member_item,
  name_attribute,
  parameter_item,
  place_attributes,
  subrange_item,
  value_of,
};

use crate::constants::*;
use crate::table::{TypeTable, is_told, push_type, variable_type};
use dwarf_entry::tree::{Attribute, Attributes, Entry, Tree, TreeItem, Value};
use dwarf_info::constants::{DW_AT_name, DW_AT_type, DW_TAG_formal_parameter};
use std::alloc::{AllocError, Global};
use type_nodes::shape::{Enumerator, Member, Name};

/// An attribute.
pub fn at(name: u16, value: Value) -> Attribute
    ensures { result ≡ at name value }
{
    Attribute { name, value }
}

/// Appends an entry. The error is out of memory.
pub fn push_entry(
    tree: &mut Tree,
    tag: u16,
    children: bool,
    attributes: Attributes,
) -> Result<(), AllocError>
    ensures { OnOk result (tree.new ≡ tree.old ++ entry tag children attributes ∷ []) }
{
    tree.push(TreeItem::Die(Entry {
        tag,
        children,
        attributes,
    }))
}

/// The attribute of a name, if there is one. The error is out of memory.
pub fn named(alloc: Global, name: &Name) -> Result<Attributes, AllocError>
    ensures { IfOk result (λ attributes. attributes ≡ name_attribute name.now) }
{
    let mut attributes = Attributes::new(alloc);
    if !name.is_empty() {
        attributes.push(at(u16::from(DW_AT_name), Value::Text(name.copy()?)))?;
    }
    Ok(attributes)
}

/// Appends members of a record of so many bytes: those that are told.
pub(crate) fn push_members(
    tree: &mut Tree,
    alloc: Global,
    t: &TypeTable,
    bytes: u64,
    members: &[Member],
) -> Result<(), AllocError>
    ensures { OnOk result (tree.new ≡ tree.old ++ map (member_item t.now) (filter (is_told t.now bytes) members.now)) }
{
    for member in members {
        if is_told(t, bytes, member) {
            push_member(tree, alloc, t, member)?;
        }
    }
    Ok(())
}

/// Appends a member.
fn push_member(
    tree: &mut Tree,
    alloc: Global,
    t: &TypeTable,
    member: &Member,
) -> Result<(), AllocError>
    ensures { OnOk result (tree.new ≡ tree.old ++ member_item t.now member.now ∷ []) }
{
    let mut attributes = named(alloc, &member.name)?;
    push_type(&mut attributes, t, Some(member.base))?;
    push_place(&mut attributes, member)?;
    push_entry(tree, DW_TAG_member, false, attributes)
}

/// Appends the place of a member.
fn push_place(attributes: &mut Attributes, member: &Member) -> Result<(), AllocError>
    ensures { OnOk result (attributes.new ≡ attributes.old ++ place_attributes member.now) }
{
    if member.bit_field {
        attributes.push(at(DW_AT_bit_size, Value::Unsigned(member.size)))?;
        attributes.push(at(DW_AT_data_bit_offset, Value::Unsigned(member.offset)))
    } else {
        attributes.push(at(
            DW_AT_data_member_location,
            Value::Unsigned(member.offset / 8),
        ))
    }
}

/// Appends enumerators.
pub(crate) fn push_enumerators(
    tree: &mut Tree,
    alloc: Global,
    enumerators: &[Enumerator],
) -> Result<(), AllocError>
    ensures { OnOk result (tree.new ≡ tree.old ++ map enumerator_item enumerators.now) }
{
    for enumerator in enumerators {
        push_enumerator(tree, alloc, enumerator)?;
    }
    Ok(())
}

/// Appends an enumerator.
fn push_enumerator(
    tree: &mut Tree,
    alloc: Global,
    enumerator: &Enumerator,
) -> Result<(), AllocError>
    ensures { OnOk result (tree.new ≡ tree.old ++ enumerator_item enumerator.now ∷ []) }
{
    let mut attributes = Attributes::new(alloc);
    attributes.push(at(u16::from(DW_AT_name), Value::Text(enumerator.name.copy()?)))?;
    let value = value_of(enumerator.value, enumerator.negative);
    attributes.push(at(DW_AT_const_value, value))?;
    push_entry(tree, DW_TAG_enumerator, false, attributes)
}

/// The value of an enumerator.
fn value_of(value: u64, negative: Option<i64>) -> Value
    ensures { result ≡ value_of value negative }
{
    match negative {
        None => Value::Unsigned(value),
        Some(value) => Value::Signed(value),
    }
}

/// Appends the dimensions of an array.
pub(crate) fn push_subranges(
    tree: &mut Tree,
    alloc: Global,
    counts: &[Option<u64>],
) -> Result<(), AllocError>
    ensures { OnOk result (tree.new ≡ tree.old ++ map subrange_item counts.now) }
{
    for count in counts {
        let mut attributes = Attributes::new(alloc);
        if let Some(count) = count {
            attributes.push(at(DW_AT_count, Value::Unsigned(*count)))?;
        }
        push_entry(tree, DW_TAG_subrange_type, false, attributes)?;
    }
    Ok(())
}

/// Appends parameters.
pub(crate) fn push_parameters(
    tree: &mut Tree,
    alloc: Global,
    t: &TypeTable,
    parameters: &[u32],
) -> Result<(), AllocError>
    ensures { OnOk result (tree.new ≡ tree.old ++ map (parameter_item t.now) parameters.now) }
{
    for index in parameters {
        let mut attributes = Attributes::new(alloc);
        attributes.push(at(u16::from(DW_AT_type), variable_type(t, Some(*index))))?;
        push_entry(tree, u16::from(DW_TAG_formal_parameter), false, attributes)?;
    }
    Ok(())
}
