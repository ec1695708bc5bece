//! A tree of entries as data: a unit with a type, and two functions, the first with a parameter.

ghost use Rattle.std.specs.Prelude.{IsTrue, All};
ghost use Rattle.linkable_command.specs.entry_placement.dwarf_entry.Entries.{RefersBelow, AttributeRefersBelow, ItemRefersBelow};

use base_list::List;
use linkable_command::entry_placement_crate::dwarf_entry_crate::tree::{
    Attribute, Attributes, Entry, Tree, TreeItem, Value,
};
use std::alloc::{AllocError, Global};

/// The value of an attribute.
enum Given {
    Address(u64),
    Data1(u8),
    Data2(u16),
    Data4(u32),
    Text(&'static [u8]),
    Reference(usize),
    SectionOffset(u32),
    LocationList(u64),
}

/// An item: an entry, or the null entry if the tag is 0.
struct EntryRow {
    tag: u16,
    children: bool,
    attributes: &'static [(u16, Given)],
}

const NULL: EntryRow = EntryRow {
    tag: 0,
    children: false,
    attributes: &[],
};

/// The items.
static ROWS: &[EntryRow] = &[
    EntryRow {
        tag: 0x11,
        children: true,
        attributes: &[
            (0x13, Given::Data2(0xc)),
            (3, Given::Text(b"t.c")),
            (0x1b, Given::Text(b"/d")),
            (0x10, Given::SectionOffset(0)),
            (0x11, Given::Address(0)),
            (0x12, Given::Data4(48)),
            (0x8c, Given::SectionOffset(12)),
            (0x74, Given::SectionOffset(12)),
        ],
    },
    EntryRow {
        tag: 0x24,
        children: false,
        attributes: &[
            (3, Given::Text(b"long")),
            (0x0b, Given::Data1(8)),
            (0x3e, Given::Data1(5)),
        ],
    },
    EntryRow {
        tag: 0x2e,
        children: true,
        attributes: &[
            (3, Given::Text(b"f")),
            (0x11, Given::Address(0)),
            (0x12, Given::Data4(44)),
        ],
    },
    EntryRow {
        tag: 5,
        children: false,
        attributes: &[
            (3, Given::Text(b"x")),
            (0x49, Given::Reference(1)),
            (2, Given::LocationList(0)),
        ],
    },
    NULL,
    EntryRow {
        tag: 0x2e,
        children: true,
        attributes: &[
            (3, Given::Text(b"h")),
            (0x11, Given::Address(44)),
            (0x12, Given::Data4(4)),
        ],
    },
    NULL,
    NULL,
];

/// A value.
fn value_of(alloc: Global, given: &Given) -> Result<Value, AllocError> {
    Ok(match given {
        Given::Address(address) => Value::Address(*address),
        Given::Data1(n) => Value::Data1(*n),
        Given::Data2(n) => Value::Data2(*n),
        Given::Data4(n) => Value::Data4(*n),
        Given::Text(text) => Value::Text(List::from_slice(alloc, text)?),
        Given::Reference(item) => Value::Reference(*item),
        Given::SectionOffset(offset) => Value::SectionOffset(*offset),
        Given::LocationList(list) => Value::LocationList(*list),
    })
}

/// An item.
fn item_of(alloc: Global, row: &EntryRow) -> Result<TreeItem, AllocError> {
    if row.tag == 0 {
        return Ok(TreeItem::Null);
    }
    let mut attributes = Attributes::new(alloc);
    for (name, given) in row.attributes {
        attributes.push(Attribute {
            name: *name,
            value: value_of(alloc, given)?,
        })?;
    }
    Ok(TreeItem::Die(Entry {
        tag: row.tag,
        children: row.children,
        attributes,
    }))
}

/// The tree.
pub(crate) fn tree_of(alloc: Global) -> Result<Tree, AllocError> {
    let mut tree = Tree::new(alloc);
    for row in ROWS {
        tree.push(item_of(alloc, row)?)?;
    }
    Ok(tree)
}

/// Whether a reference is to one of so many items.
fn refers_below(count: usize, value: &Value) -> bool
    ensures { IsTrue result → RefersBelow count value.now }
{
    match value {
        Value::Reference(item) => *item < count,
        _ => true,
    }
}

/// Whether all references of attributes are.
fn attributes_refer(count: usize, attributes: &[Attribute]) -> bool
    ensures { IsTrue result → All (AttributeRefersBelow count) attributes.now }
{
    for attribute in attributes {
        if !refers_below(count, &attribute.value) {
            return false;
        }
    }
    true
}

/// Whether those of an item are.
fn item_refers(count: usize, item: &TreeItem) -> bool
    ensures { IsTrue result → ItemRefersBelow count item.now }
{
    match item {
        TreeItem::Null => true,
        TreeItem::Die(entry) => attributes_refer(count, entry.attributes.as_slice()),
    }
}

/// Whether those of items are.
pub(crate) fn items_refer(count: usize, items: &[TreeItem]) -> bool
    ensures { IsTrue result → All (ItemRefersBelow count) items.now }
{
    for item in items {
        if !item_refers(count, item) {
            return false;
        }
    }
    true
}
