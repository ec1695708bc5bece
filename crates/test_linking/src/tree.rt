//! Trees of rows.

ghost use Rattle.std.specs.Prelude.{IsTrue, All};
ghost use Rattle.dwarf_entry.specs.Entries.{RefersBelow, AttributeRefersBelow, ItemRefersBelow};

use crate::rows::{Given, Row};
use base_list::List;
use dwarf_entry::tree::{Attribute, Attributes, Entry, Tree, TreeItem, Value};
use std::alloc::{AllocError, Global};

/// A value.
fn value_of(alloc: Global, given: &Given) -> Result<Value, AllocError> {
    Ok(match given {
        Given::Address(address) => Value::Address(*address),
        Given::Data1(n) => Value::Data1(*n),
        Given::Data2(n) => Value::Data2(*n),
        Given::Data4(n) => Value::Data4(*n),
        Given::Unsigned(n) => Value::Unsigned(*n),
        Given::Signed(v) => Value::Signed(*v),
        Given::Text(text) => Value::Text(List::from_slice(alloc, text)?),
        Given::Reference(item) => Value::Reference(*item),
        Given::SectionOffset(offset) => Value::SectionOffset(*offset),
        Given::LocationList(list) => Value::LocationList(*list),
        Given::RangeList(list) => Value::RangeList(*list),
        Given::Flag(is) => Value::Flag(*is),
        Given::Present => Value::Present,
        Given::Expression(bytes) => Value::Expression(List::from_slice(alloc, bytes)?),
    })
}

/// An item.
fn item_of(alloc: Global, row: &Row) -> Result<TreeItem, AllocError> {
    if row.tag == 0 {
        return Ok(TreeItem::Null);
    }
    let mut attributes = Attributes::new(alloc);
    for (name, given) in row.attributes {
        attributes.push(Attribute {
            name: *name,
            value: value_of(alloc, given)?,
        })?;
    }
    Ok(TreeItem::Die(Entry {
        tag: row.tag,
        children: row.children,
        attributes,
    }))
}

/// The tree of rows.
pub(crate) fn tree_of(alloc: Global, rows: &[Row]) -> Result<Tree, AllocError> {
    let mut tree = Tree::new(alloc);
    for row in rows {
        tree.push(item_of(alloc, row)?)?;
    }
    Ok(tree)
}

/// Whether a reference is to one of so many items.
fn refers_below(count: usize, value: &Value) -> bool
    ensures { IsTrue result → RefersBelow count value.now }
{
    match value {
        Value::Reference(item) => *item < count,
        _ => true,
    }
}

/// Whether all references of attributes are.
fn attributes_refer(count: usize, attributes: &[Attribute]) -> bool
    ensures { IsTrue result → All (AttributeRefersBelow count) attributes.now }
{
    for attribute in attributes {
        if !refers_below(count, &attribute.value) {
            return false;
        }
    }
    true
}

/// Whether those of an item are.
fn item_refers(count: usize, item: &TreeItem) -> bool
    ensures { IsTrue result → ItemRefersBelow count item.now }
{
    match item {
        TreeItem::Null => true,
        TreeItem::Die(entry) => attributes_refer(count, entry.attributes.as_slice()),
    }
}

/// Whether those of items are.
pub(crate) fn items_refer(count: usize, items: &[TreeItem]) -> bool
    ensures { IsTrue result → All (ItemRefersBelow count) items.now }
{
    for item in items {
        if !item_refers(count, item) {
            return false;
        }
    }
    true
}
