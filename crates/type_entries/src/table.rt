//! What the entries of types are made by.

ghost use Rattle.std.specs.Prelude.{◌≡◌, ◌++◌, OnOk};
ghost use Rattle.std.specs.List.{slice_get};
ghost use Rattle.graph_cycles.specs.Ends.{is_marked};
ghost use Rattle.type_nodes.specs.Sizes.{size_at};
ghost use Rattle.type_entries.specs.Entries.{
  is_array,
  is_known,
  is_told,
  is_whole,
  item_of,
  type_attribute,
  variable_type,
};

use base_list::List;
use dwarf_entry::tree::{Attribute, Attributes, Value};
use dwarf_info::constants::DW_AT_type;
use std::alloc::AllocError;
use type_nodes::shape::{Member, Shape};

/// The types of a program, with what is looked up of each by its index.
#[derive(Drop)]
pub struct TypeTable {
    /// The types.
    pub types: List<Shape>,
    /// Whether each stands.
    pub stands: Vec<bool>,
    /// The size of each in bytes, and none where it isn't known.
    pub sizes: Vec<Option<u64>>,
    /// The item of each one's entry.
    pub items: Vec<usize>,
    /// The item of the unknown type.
    pub unknown: usize,
}

/// Whether a type stands.
pub fn stands(t: &TypeTable, index: u32) -> bool
    ensures { result ≡ is_marked t.now.stands.items index }
{
    let index = index as usize;
    index < t.stands.len() && t.stands[index]
}

/// The size of a type.
fn size(t: &TypeTable, index: u32) -> Option<u64>
    ensures { result ≡ size_at t.now.sizes.items index }
{
    let index = index as usize;
    if index < t.sizes.len() {
        t.sizes[index]
    } else {
        None
    }
}

/// The item of a type's entry.
fn item(t: &TypeTable, index: u32) -> usize
    ensures { result ≡ item_of t.now index }
{
    let index = index as usize;
    if index < t.items.len() {
        t.items[index]
    } else {
        0
    }
}

/// Whether a type is an array.
fn is_array(t: &TypeTable, index: u32) -> bool
    ensures { result ≡ is_array (slice_get t.now.types index) }
{
    match t.types.as_slice().get(index as usize) {
        Some(Shape::Array(_, _)) => true,
        _ => false,
    }
}

/// Appends the attribute of a type, if it stands.
pub(crate) fn push_type(
    attributes: &mut Attributes,
    t: &TypeTable,
    index: Option<u32>,
) -> Result<(), AllocError>
    ensures { OnOk result (attributes.new ≡ attributes.old ++ type_attribute t.now index) }
{
    if let Some(index) = index {
        if stands(t, index) {
            attributes.push(Attribute {
                name: u16::from(DW_AT_type),
                value: Value::Reference(item(t, index)),
            })?;
        }
    }
    Ok(())
}

/// Whether a size is known, and isn't 0.
fn is_whole(size: Option<u64>) -> bool
    ensures { result ≡ is_whole size }
{
    match size {
        None => false,
        Some(size) => size != 0,
    }
}

/// Whether a type that a variable or a parameter has can be told of it: it stands, and its size is known and isn't 0.
pub fn is_known(t: &TypeTable, index: Option<u32>) -> bool
    ensures { result ≡ is_known t.now.stands.items t.now.sizes.items index }
{
    match index {
        None => false,
        Some(index) => stands(t, index) && is_whole(size(t, index)),
    }
}

/// The type of a variable or of a parameter: the unknown one where its own has no size or none that is known.
pub fn variable_type(t: &TypeTable, index: Option<u32>) -> Value
    ensures { result ≡ variable_type t.now index }
{
    match index {
        None => Value::Reference(t.unknown),
        Some(index) => {
            if stands(t, index) && is_whole(size(t, index)) {
                Value::Reference(item(t, index))
            } else {
                Value::Reference(t.unknown)
            }
        }
    }
}

/// Whether a member of a record of so many bytes is told.
pub(crate) fn is_told(t: &TypeTable, bytes: u64, member: &Member) -> bool
    ensures { result ≡ is_told t.now bytes member.now }
{
    if !stands(t, member.base) {
        return false;
    }
    let sized = match size(t, member.base) {
        None => is_array(t, member.base),
        Some(_) => true,
    };
    if !sized || !(member.bit_field || member.offset % 8 == 0) {
        return false;
    }
    let end = u128::from(member.offset) + u128::from(member.size);
    end <= 8 * u128::from(bytes)
}
