//! The size of a unit in bytes.

ghost use Rattle.std.specs.Prelude.{◌≡◌, ◌≤◌, ◌^◌, ◌↔◌, ℕ, length, IsNone, IfSome};
ghost use Rattle.std.specs.List.{flat_map};
ghost use Rattle.dwarf_base.specs.Leb.{uleb_of};
ghost use Rattle.dwarf_base.specs.Size.{capped};
ghost use Rattle.dwarf_entry.specs.Declarations;
ghost use Rattle.dwarf_entry.specs.Declarations.{abbreviation_of};
ghost use Rattle.dwarf_entry.specs.Entries.{value_bytes, attribute_bytes, entry_bytes, item_bytes, tree_bytes, spelling};

use crate::abbreviation::{Abbreviation, code_of};
use crate::tree::{Attribute, Entry, TreeItem, Value};
use dwarf_base::leb::{sleb, uleb};
use dwarf_base::limits::SECTION_LIMIT;
use dwarf_info::size::text_len;

/// The bytes of the unit's header.
const HEADER: usize = 12;

/// The size of a tree's section `.debug_info` in bytes, and `None` if and only if it is 2^31 or more. It takes no
/// memory.
pub fn entries_size(abbreviations: &[Abbreviation], tree: &[TreeItem]) -> Option<u32>
    ensures none { IsNone result ↔ (2 ^ 31 ≤ length (spelling abbreviations.now tree.now)) }
    ensures size { IfSome result (λ size. size ≡ length (spelling abbreviations.now tree.now)) }
{
    let size = section_len(abbreviations, tree);
    if size < SECTION_LIMIT {
        Some(size as u32)
    } else {
        None
    }
}

/// The bytes of the section.
pub fn section_len(abbreviations: &[Abbreviation], tree: &[TreeItem]) -> usize
    ensures { result ≡ capped (length (spelling abbreviations.now tree.now)) }
{
    HEADER.saturating_add(tree_len(abbreviations, tree))
}

/// The bytes of a tree's items.
fn tree_len(abbreviations: &[Abbreviation], tree: &[TreeItem]) -> usize
    ensures { (offset : ℕ → ℕ) → result ≡ capped (length (tree_bytes abbreviations.now offset tree.now)) }
{
    let mut len: usize = 0;
    for item in tree {
        len = len.saturating_add(item_len(abbreviations, item));
    }
    len
}

/// The bytes of an item.
pub fn item_len(abbreviations: &[Abbreviation], item: &TreeItem) -> usize
    ensures { (offset : ℕ → ℕ) → result ≡ capped (length (item_bytes abbreviations.now offset item.now)) }
{
    match item {
        TreeItem::Null => 1,
        TreeItem::Die(entry) => entry_len(abbreviations, entry),
    }
}

/// The bytes of an entry.
fn entry_len(abbreviations: &[Abbreviation], entry: &Entry) -> usize
    ensures { (offset : ℕ → ℕ) → result ≡ capped (length (entry_bytes abbreviations.now offset entry.now)) }
{
    code_len(abbreviations, entry).saturating_add(attributes_len(entry.attributes.as_slice()))
}

/// The bytes of the code of an entry's abbreviation.
fn code_len(abbreviations: &[Abbreviation], entry: &Entry) -> usize
    ensures exact { result ≡ length (uleb_of (Declarations.code_of abbreviations.now (abbreviation_of entry.now))) }
    ensures within { result ≤ 10 }
{
    uleb(code_of(abbreviations, entry) as u64).len()
}

/// The bytes of attributes.
fn attributes_len(attributes: &[Attribute]) -> usize
    ensures { (offset : ℕ → ℕ) → result ≡ capped (length (flat_map (attribute_bytes offset) attributes.now)) }
{
    let mut len: usize = 0;
    for attribute in attributes {
        len = len.saturating_add(value_len(&attribute.value));
    }
    len
}

/// The bytes of a value.
fn value_len(value: &Value) -> usize
    ensures { (offset : ℕ → ℕ) → result ≡ capped (length (value_bytes offset value.now)) }
{
    match value {
        Value::Address(_) => 8,
        Value::Data1(_) | Value::Flag(_) => 1,
        Value::Data2(_) => 2,
        Value::Data4(_) | Value::Reference(_) | Value::SectionOffset(_) => 4,
        Value::Present => 0,
        Value::Unsigned(n) => uleb(*n).len(),
        Value::LocationList(n) => uleb(*n).len(),
        Value::RangeList(n) => uleb(*n).len(),
        Value::Signed(v) => sleb(*v).len(),
        Value::Text(name) => text_len(name.as_slice()),
        Value::Expression(bytes) => uleb(bytes.len() as u64).len().saturating_add(bytes.len()),
    }
}
