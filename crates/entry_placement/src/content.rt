//! The content of a tree's section, with its relocations.

ghost use Rattle.std.specs.Prelude.{◌≡◌, ◌<◌, ◌^◌, ◌++◌, ◌∷◌, [], length, All, IfOk, OnOk};
ghost use Rattle.std.specs.List.{flat_map};
ghost use Rattle.elf_content.specs.Content.{relocations_from, written};
ghost use Rattle.debug_placement.specs.Fields.{address_field, offset_field};
ghost use Rattle.dwarf_entry.specs.Declarations;
ghost use Rattle.dwarf_entry.specs.Declarations.{abbreviation_of};
ghost use Rattle.dwarf_base.specs.Leb.{uleb_of};
ghost use Rattle.dwarf_entry.specs.Entries.{spelling, AttributeRefersBelow, ItemRefersBelow, RefersWithin};
ghost use Rattle.dwarf_entry.specs.declared.tree.TreeItem.TheVariants.{Die};
ghost use Rattle.dwarf_entry.specs.steps.Offsets.{in_table};
ghost use Rattle.entry_placement.specs.Pieces;
ghost use Rattle.entry_placement.specs.Pieces.{attribute_pieces, header_pieces, item_pieces, tree_pieces, unit_pieces};

use base_list::List;
use dwarf_base::constants::{ADDRESS_SIZE, VERSION};
use dwarf_base::leb::uleb;
use dwarf_entry::abbreviation::{Abbreviation, code_of};
use dwarf_entry::offsets::item_offsets;
use dwarf_entry::size::section_len;
use dwarf_entry::tree::{Attribute, Entry, TreeItem, Value};
use dwarf_entry::write::push_value;
use dwarf_info::abbreviation::push_leb;
use dwarf_info::constants::{DW_AT_loclists_base, DW_AT_stmt_list, DW_UT_compile};
use dwarf_info::entry::{push_u16, push_u32, push_u64};
use elf_content::content::{Content, Relocations};
use elf_object::constants::{R_RISCV_32, R_RISCV_64};
use elf_object::relocations::Relocation;
use std::alloc::{AllocError, Global};

/// The bytes of the length field, which it doesn't count.
const LENGTH: usize = 4;

/// The numbers of the symbols of sections, from 1.
#[derive(Clone, Copy, Debug, PartialEq, Eq)]
pub struct SectionSymbols {
    /// That of code.
    pub text: u32,
    /// That of `.debug_abbrev`.
    pub abbreviations: u32,
    /// That of `.debug_line`.
    pub lines: u32,
    /// That of `.debug_loclists`.
    pub location_lists: u32,
    /// That of `.debug_rnglists`.
    pub range_lists: u32,
}

/// The content of a tree's section `.debug_info`. The error is out of memory.
pub fn entry_content(
    alloc: Global,
    symbols: &SectionSymbols,
    abbreviations: &[Abbreviation],
    tree: &[TreeItem],
) -> Result<Content, AllocError>
    requires references { RefersWithin tree.now }
    requires size { length (spelling abbreviations.now tree.now) < 2 ^ 31 }
    ensures bytes { IfOk result (λ c. c.bytes ≡ written (unit_pieces symbols.now abbreviations.now tree.now)) }
    ensures relocations { IfOk result (λ c. c.relocations
        ≡ relocations_from 0 (unit_pieces symbols.now abbreviations.now tree.now)) }
{
    let size = section_len(abbreviations, tree);
    let offsets = item_offsets(alloc, abbreviations, tree)?;
    let mut bytes = Vec::with_capacity(alloc, size)?;
    let mut relocations = Relocations::new(alloc);
    push_header(
        &mut bytes,
        &mut relocations,
        symbols,
        (size - LENGTH) as u32,
    )?;
    push_items(
        &mut bytes,
        &mut relocations,
        symbols,
        abbreviations,
        offsets.as_slice(),
        tree,
    )?;
    Ok(Content {
        bytes: List::from(bytes),
        relocations,
    })
}

/// Appends the unit's header.
fn push_header(
    bytes: &mut Vec<u8>,
    relocations: &mut Relocations,
    symbols: &SectionSymbols,
    length_after: u32,
) -> Result<(), AllocError>
    ensures bytes { OnOk result (bytes.new.items ≡ bytes.old.items
        ++ written (header_pieces symbols.now length_after)) }
    ensures relocations { OnOk result (relocations.new ≡ relocations.old
        ++ relocations_from (length bytes.old.items) (header_pieces symbols.now length_after)) }
{
    push_u32(bytes, length_after)?;
    push_u16(bytes, VERSION)?;
    bytes.push(DW_UT_compile)?;
    bytes.push(ADDRESS_SIZE)?;
    push_offset(bytes, relocations, symbols.abbreviations, 0)?;
    Ok(())
}

/// Appends items. The table has the offset of each item of the tree.
fn push_items(
    bytes: &mut Vec<u8>,
    relocations: &mut Relocations,
    symbols: &SectionSymbols,
    abbreviations: &[Abbreviation],
    offsets: &[u32],
    tree: &[TreeItem],
) -> Result<(), AllocError>
    requires { All (ItemRefersBelow (length offsets.now)) tree.now }
    ensures bytes { OnOk result (bytes.new.items ≡ bytes.old.items
        ++ written (tree_pieces symbols.now abbreviations.now (in_table offsets.now) tree.now)) }
    ensures relocations { OnOk result (relocations.new ≡ relocations.old ++ relocations_from (length bytes.old.items)
        (tree_pieces symbols.now abbreviations.now (in_table offsets.now) tree.now)) }
{
    for item in tree {
        push_item(bytes, relocations, symbols, abbreviations, offsets, item)?;
    }
    Ok(())
}

/// Appends an item.
fn push_item(
    bytes: &mut Vec<u8>,
    relocations: &mut Relocations,
    symbols: &SectionSymbols,
    abbreviations: &[Abbreviation],
    offsets: &[u32],
    item: &TreeItem,
) -> Result<(), AllocError>
    requires { ItemRefersBelow (length offsets.now) item.now }
    ensures bytes { OnOk result (bytes.new.items ≡ bytes.old.items
        ++ written (item_pieces symbols.now abbreviations.now (in_table offsets.now) item.now)) }
    ensures relocations { OnOk result (relocations.new ≡ relocations.old ++ relocations_from (length bytes.old.items)
        (item_pieces symbols.now abbreviations.now (in_table offsets.now) item.now)) }
{
    match item {
        TreeItem::Null => {
            bytes.push(0)?;
            Ok(())
        }
        TreeItem::Die(entry) => {
            push_entry(bytes, relocations, symbols, abbreviations, offsets, entry)
        }
    }
}

/// Appends an entry: the code of its abbreviation, and its values.
fn push_entry(
    bytes: &mut Vec<u8>,
    relocations: &mut Relocations,
    symbols: &SectionSymbols,
    abbreviations: &[Abbreviation],
    offsets: &[u32],
    entry: &Entry,
) -> Result<(), AllocError>
    requires { All (AttributeRefersBelow (length offsets.now)) entry.now.attributes }
    ensures bytes { OnOk result (bytes.new.items ≡ bytes.old.items
        ++ written (item_pieces symbols.now abbreviations.now (in_table offsets.now) (Die entry.now))) }
    ensures relocations { OnOk result (relocations.new ≡ relocations.old ++ relocations_from (length bytes.old.items)
        (item_pieces symbols.now abbreviations.now (in_table offsets.now) (Die entry.now))) }
{
    push_code(bytes, abbreviations, entry)?;
    push_attributes(
        bytes,
        relocations,
        symbols,
        offsets,
        entry.attributes.as_slice(),
    )?;
    Ok(())
}

/// Appends the code of an entry's abbreviation.
fn push_code(
    bytes: &mut Vec<u8>,
    abbreviations: &[Abbreviation],
    entry: &Entry,
) -> Result<(), AllocError>
    ensures { OnOk result (bytes.new.items ≡ bytes.old.items
        ++ uleb_of (Declarations.code_of abbreviations.now (abbreviation_of entry.now))) }
{
    push_leb(bytes, &uleb(code_of(abbreviations, entry) as u64))
}

/// Appends the values of attributes.
fn push_attributes(
    bytes: &mut Vec<u8>,
    relocations: &mut Relocations,
    symbols: &SectionSymbols,
    offsets: &[u32],
    attributes: &[Attribute],
) -> Result<(), AllocError>
    requires { All (AttributeRefersBelow (length offsets.now)) attributes.now }
    ensures bytes { OnOk result (bytes.new.items ≡ bytes.old.items
        ++ written (flat_map (attribute_pieces symbols.now (in_table offsets.now)) attributes.now)) }
    ensures relocations { OnOk result (relocations.new ≡ relocations.old ++ relocations_from (length bytes.old.items)
        (flat_map (attribute_pieces symbols.now (in_table offsets.now)) attributes.now)) }
{
    for attribute in attributes {
        push_attribute(bytes, relocations, symbols, offsets, attribute)?;
    }
    Ok(())
}

/// Appends the value of an attribute.
fn push_attribute(
    bytes: &mut Vec<u8>,
    relocations: &mut Relocations,
    symbols: &SectionSymbols,
    offsets: &[u32],
    attribute: &Attribute,
) -> Result<(), AllocError>
    requires { AttributeRefersBelow (length offsets.now) attribute.now }
    ensures bytes { OnOk result (bytes.new.items ≡ bytes.old.items
        ++ written (attribute_pieces symbols.now (in_table offsets.now) attribute.now)) }
    ensures relocations { OnOk result (relocations.new ≡ relocations.old ++ relocations_from (length bytes.old.items)
        (attribute_pieces symbols.now (in_table offsets.now) attribute.now)) }
{
    match &attribute.value {
        Value::Address(address) => push_address(bytes, relocations, symbols.text, *address),
        Value::SectionOffset(offset) => {
            push_offset(
                bytes,
                relocations,
                symbol_of(symbols, attribute.name),
                *offset,
            )
        }
        Value::Data1(_)
        | Value::Data2(_)
        | Value::Data4(_)
        | Value::Unsigned(_)
        | Value::Signed(_)
        | Value::Text(_)
        | Value::Reference(_)
        | Value::LocationList(_)
        | Value::RangeList(_)
        | Value::Flag(_)
        | Value::Present
        | Value::Expression(_) => push_value(bytes, offsets, &attribute.value),
    }
}

/// The number of the symbol of the section into which the attribute of a name is an offset.
fn symbol_of(symbols: &SectionSymbols, name: u16) -> u32
    ensures { result ≡ Pieces.symbol_of symbols.now name }
{
    if name == DW_AT_stmt_list as u16 {
        symbols.lines
    } else if name == DW_AT_loclists_base as u16 {
        symbols.location_lists
    } else {
        symbols.range_lists
    }
}

/// Appends the field of an address in the section of the symbol of a number.
fn push_address(
    bytes: &mut Vec<u8>,
    relocations: &mut Relocations,
    symbol: u32,
    address: u64,
) -> Result<(), AllocError>
    ensures bytes { OnOk result (bytes.new.items ≡ bytes.old.items ++ written (address_field symbol address ∷ [])) }
    ensures relocations { OnOk result (relocations.new ≡ relocations.old
        ++ relocations_from (length bytes.old.items) (address_field symbol address ∷ [])) }
{
    relocations.push(Relocation {
        offset: bytes.len() as u64,
        symbol,
        relocation_type: R_RISCV_64,
        addend: address,
    })?;
    push_u64(bytes, 0)
}

/// Appends the field of an offset in the section of the symbol of a number.
fn push_offset(
    bytes: &mut Vec<u8>,
    relocations: &mut Relocations,
    symbol: u32,
    offset: u32,
) -> Result<(), AllocError>
    ensures bytes { OnOk result (bytes.new.items ≡ bytes.old.items ++ written (offset_field symbol offset ∷ [])) }
    ensures relocations { OnOk result (relocations.new ≡ relocations.old
        ++ relocations_from (length bytes.old.items) (offset_field symbol offset ∷ [])) }
{
    relocations.push(Relocation {
        offset: bytes.len() as u64,
        symbol,
        relocation_type: R_RISCV_32,
        addend: offset as u64,
    })?;
    push_u32(bytes, 0)
}
