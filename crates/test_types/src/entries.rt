//! The entries of types, as another writer of DWARF has them.

use crate::shapes::shapes;
use dwarf_entry::tree::{Attribute, Tree, TreeItem, Value};
use std::alloc::{AllocError, Global};
use std::test::Fail;
use type_entries::all_types::{
    place_types, push_types, push_unknown, table_of, types_name_unknown,
};
use type_entries::constants::standard_numbers;
use type_entries::laws::references_are_right;

/// An item: its tag, whether it has children, and each attribute's name with a number. The tag of the null entry is 0.
type Item = (u16, bool, &'static [(u16, u64)]);

/// The items behind the unit's. The number of a name is its length, that of a reference an
/// item, and that of a value below 0 its magnitude.
static ITEMS: &[Item] = &[
    (0x24, false, &[(0x03, 7), (0x0b, 8), (0x3e, 7)]),
    (0x24, false, &[(0x03, 4), (0x0b, 8), (0x3e, 5)]),
    (0x13, true, &[(0x03, 1), (0x0b, 16)]),
    (0x0d, false, &[(0x03, 1), (0x49, 2), (0x38, 0)]),
    (0x0d, false, &[(0x03, 1), (0x49, 9), (0x38, 8)]),
    (0x0d, false, &[(0x03, 1), (0x49, 2), (0x0d, 5), (0x6b, 3)]),
    (0x0d, false, &[(0x49, 17), (0x38, 0)]),
    (0, false, &[]),
    (0x0f, false, &[(0x0b, 8), (0x49, 3)]),
    (0x16, false, &[(0x03, 1), (0x49, 9)]),
    (0x26, false, &[]),
    (0x13, false, &[(0x03, 1), (0x3c, 1)]),
    (0x04, true, &[(0x03, 1), (0x0b, 4), (0x49, 2)]),
    (0x28, false, &[(0x03, 3), (0x1c, 1)]),
    (0x28, false, &[(0x03, 4), (0x1c, 7)]),
    (0, false, &[]),
    (0x01, true, &[(0x49, 2)]),
    (0x21, false, &[(0x37, 3)]),
    (0x21, false, &[]),
    (0, false, &[]),
    (0x15, true, &[(0x27, 1), (0x49, 9)]),
    (0x05, false, &[(0x49, 2)]),
    (0x05, false, &[(0x49, 1)]),
    (0x05, false, &[(0x49, 10)]),
    (0x18, false, &[]),
    (0, false, &[]),
    (0x0f, false, &[(0x0b, 8)]),
];

/// The number of a value.
fn number_of(value: &Value) -> u64 {
    match value {
        Value::Data1(n) => u64::from(*n),
        Value::Unsigned(n) => *n,
        Value::Signed(v) => v.unsigned_abs(),
        Value::Text(name) => name.len() as u64,
        Value::Reference(item) => *item as u64,
        Value::Flag(is) => u64::from(*is),
        Value::Present => 1,
        _ => 99,
    }
}

/// Whether attributes are as told.
fn are_attributes(attributes: &[Attribute], told: &[(u16, u64)]) -> bool {
    for (attribute, (name, number)) in attributes.iter().zip(told) {
        if attribute.name != *name || number_of(&attribute.value) != *number {
            return false;
        }
    }
    attributes.len() == told.len()
}

/// Whether an item is as told.
fn is_item(item: &TreeItem, told: &Item) -> bool {
    match item {
        TreeItem::Null => told.0 == 0,
        TreeItem::Die(entry) => {
            entry.tag == told.0
                && entry.children == told.1
                && are_attributes(entry.attributes.as_slice(), told.2)
        }
    }
}

/// Whether the items of the types are as told. An item stands in the place of the unit's.
fn are_items(alloc: Global, told: &[Item]) -> Result<bool, AllocError> {
    let types = shapes(alloc)?;
    if types.len() > 100 {
        return Ok(false);
    }
    let mut tree = Tree::new(alloc);
    tree.push(TreeItem::Null)?;
    push_unknown(&mut tree, alloc)?;
    let mut table = table_of(alloc, types)?;
    place_types(&mut tree, alloc, &mut table, 1)?;
    if !types_name_unknown(&table) {
        return Ok(false);
    }
    push_types(&mut tree, alloc, &table)?;
    for (item, told) in tree.as_slice().iter().skip(1).zip(told) {
        if !is_item(item, told) {
            return Ok(false);
        }
    }
    Ok(tree.len() == told.len() + 1)
}

#[test]
fn types_have_entries(rt: HostRuntime) -> Result<(), Fail> {
    standard_numbers();
    references_are_right();
    assert!(rt; are_items(rt.alloc(), ITEMS)?);
    Ok(())
}
