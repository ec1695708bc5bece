//! The writer of a tree's section.

ghost use Rattle.std.specs.Prelude.{◌≡◌, ◌<◌, ◌^◌, ◌++◌, ◌∷◌, [], length, All, IfOk, OnOk};
ghost use Rattle.std.specs.List.{flat_map};
ghost use Rattle.dwarf_entry.specs.Entries.{value_bytes, attribute_bytes, entry_bytes, item_bytes, tree_bytes, spelling};
ghost use Rattle.dwarf_entry.specs.Entries.{RefersBelow, AttributeRefersBelow, ItemRefersBelow, RefersWithin};
ghost use Rattle.dwarf_base.specs.Leb.{uleb_of};
ghost use Rattle.dwarf_entry.specs.steps.Offsets.{in_table};

use crate::abbreviation::{Abbreviation, code_of};
use crate::offsets::item_offsets;
use crate::size::section_len;
use crate::tree::{Attribute, Bytes, Entry, TreeItem, Value};
use base_list::List;
use dwarf_base::leb::{sleb, uleb};
use dwarf_info::abbreviation::push_leb;
use dwarf_info::entry::{push_text, push_u16, push_u32, push_u64};
use dwarf_info::write::push_header;
use std::alloc::{AllocError, Global};

/// The bytes of the length field, which it doesn't count.
const LENGTH: usize = 4;

/// The section `.debug_info` of a tree. The error is out of memory.
pub fn write_entries(
    alloc: Global,
    abbreviations: &[Abbreviation],
    tree: &[TreeItem],
) -> Result<Bytes, AllocError>
    requires references { RefersWithin tree.now }
    requires size { length (spelling abbreviations.now tree.now) < 2 ^ 31 }
    ensures { IfOk result (λ bytes. bytes ≡ spelling abbreviations.now tree.now) }
{
    let size = section_len(abbreviations, tree);
    let offsets = item_offsets(alloc, abbreviations, tree)?;
    let mut out = Vec::with_capacity(alloc, size)?;
    push_header(&mut out, (size - LENGTH) as u32)?;
    push_items(&mut out, abbreviations, offsets.as_slice(), tree)?;
    Ok(List::from(out))
}

/// Appends items. The table has the offset of each item of the tree.
fn push_items(
    out: &mut Vec<u8>,
    abbreviations: &[Abbreviation],
    offsets: &[u32],
    tree: &[TreeItem],
) -> Result<(), AllocError>
    requires { All (ItemRefersBelow (length offsets.now)) tree.now }
    ensures { OnOk result (out.new.items ≡ out.old.items
        ++ tree_bytes abbreviations.now (in_table offsets.now) tree.now) }
{
    for item in tree {
        push_item(out, abbreviations, offsets, item)?;
    }
    Ok(())
}

/// Appends an item.
fn push_item(
    out: &mut Vec<u8>,
    abbreviations: &[Abbreviation],
    offsets: &[u32],
    item: &TreeItem,
) -> Result<(), AllocError>
    requires { ItemRefersBelow (length offsets.now) item.now }
    ensures { OnOk result (out.new.items ≡ out.old.items
        ++ item_bytes abbreviations.now (in_table offsets.now) item.now) }
{
    match item {
        TreeItem::Null => push_byte(out, 0),
        TreeItem::Die(entry) => push_entry(out, abbreviations, offsets, entry),
    }
}

/// Appends an entry: the code of its abbreviation, and its values.
fn push_entry(
    out: &mut Vec<u8>,
    abbreviations: &[Abbreviation],
    offsets: &[u32],
    entry: &Entry,
) -> Result<(), AllocError>
    requires { All (AttributeRefersBelow (length offsets.now)) entry.now.attributes }
    ensures { OnOk result (out.new.items ≡ out.old.items
        ++ entry_bytes abbreviations.now (in_table offsets.now) entry.now) }
{
    push_leb(out, &uleb(code_of(abbreviations, entry) as u64))?;
    push_attributes(out, offsets, entry.attributes.as_slice())
}

/// Appends the values of attributes.
fn push_attributes(
    out: &mut Vec<u8>,
    offsets: &[u32],
    attributes: &[Attribute],
) -> Result<(), AllocError>
    requires { All (AttributeRefersBelow (length offsets.now)) attributes.now }
    ensures { OnOk result (out.new.items ≡ out.old.items
        ++ flat_map (attribute_bytes (in_table offsets.now)) attributes.now) }
{
    for attribute in attributes {
        push_value(out, offsets, &attribute.value)?;
    }
    Ok(())
}

/// Appends a value.
pub fn push_value(out: &mut Vec<u8>, offsets: &[u32], value: &Value) -> Result<(), AllocError>
    requires { RefersBelow (length offsets.now) value.now }
    ensures { OnOk result (out.new.items ≡ out.old.items ++ value_bytes (in_table offsets.now) value.now) }
{
    match value {
        Value::Address(address) => push_u64(out, *address),
        Value::Data1(n) => push_byte(out, *n),
        Value::Data2(n) => push_u16(out, *n),
        Value::Data4(n) => push_u32(out, *n),
        Value::Unsigned(n) => push_leb(out, &uleb(*n)),
        Value::Signed(v) => push_leb(out, &sleb(*v)),
        Value::Text(name) => push_text(out, name.as_slice()),
        Value::Reference(item) => push_u32(out, offsets[*item]),
        Value::SectionOffset(offset) => push_u32(out, *offset),
        Value::LocationList(list) => push_leb(out, &uleb(*list)),
        Value::RangeList(list) => push_leb(out, &uleb(*list)),
        Value::Flag(is) => push_byte(out, if *is { 1 } else { 0 }),
        Value::Present => Ok(()),
        Value::Expression(bytes) => push_expression(out, bytes.as_slice()),
    }
}

/// Appends an expression behind its length.
fn push_expression(out: &mut Vec<u8>, bytes: &[u8]) -> Result<(), AllocError>
    ensures { OnOk result (out.new.items ≡ out.old.items ++ (uleb_of (length bytes.now) ++ bytes.now)) }
{
    push_leb(out, &uleb(bytes.len() as u64))?;
    out.extend_from_slice(bytes)
}

/// Appends a byte.
fn push_byte(out: &mut Vec<u8>, byte: u8) -> Result<(), AllocError>
    ensures { OnOk result (out.new.items ≡ out.old.items ++ byte ∷ []) }
{
    out.push(byte)?;
    Ok(())
}
