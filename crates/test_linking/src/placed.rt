//! The content of a tree's section with its relocations.

use crate::rows::ROWS;
use crate::tree::{items_refer, tree_of};
use debug_placement::laws::{
    placed_entries_are_moved, placed_frames_are_moved, placed_lines_are_moved,
};
use dwarf_entry::abbreviation::{Abbreviation, abbreviations_of};
use dwarf_entry::size::entries_size;
use dwarf_entry::tree::TreeItem;
use elf_content::content::Content;
use elf_object::relocations::Relocation;
use entry_placement::content::{SectionSymbols, entry_content};
use entry_placement::laws::placed_entries_are_moved as placed_trees_are_moved;
use std::alloc::{AllocError, Global};
use std::test::Fail;

/// The relocations: their offsets, symbols, types and addends.
static RELOCATIONS: &[(u64, u32, u32, u64)] = &[
    (8, 2, 1, 0),
    (19, 4, 1, 0),
    (23, 1, 2, 0),
    (35, 5, 1, 12),
    (39, 6, 1, 12),
    (94, 1, 2, 16),
];

/// The content of a tree's section, or `None` if it can't be written.
fn content_of(
    alloc: Global,
    abbreviations: &[Abbreviation],
    tree: &[TreeItem],
) -> Result<Option<Content>, AllocError> {
    let symbols = SectionSymbols {
        text: 1,
        abbreviations: 2,
        lines: 4,
        location_lists: 5,
        range_lists: 6,
    };
    if !items_refer(tree.len(), tree) || entries_size(abbreviations, tree).is_none() {
        return Ok(None);
    }
    Ok(Some(entry_content(alloc, &symbols, abbreviations, tree)?))
}

/// Whether relocations are the wanted ones.
fn are_wanted(relocations: &[Relocation]) -> bool {
    if relocations.len() != RELOCATIONS.len() {
        return false;
    }
    for (relocation, (offset, symbol, kind, addend)) in relocations.iter().zip(RELOCATIONS) {
        if relocation.offset != *offset
            || relocation.symbol != *symbol
            || relocation.relocation_type != *kind
            || relocation.addend != *addend
        {
            return false;
        }
    }
    true
}

/// Whether a byte is zero.
fn is_zero(bytes: &[u8], at: usize) -> bool {
    match bytes.get(at) {
        Some(byte) => *byte == 0,
        None => false,
    }
}

/// Whether fields begin with zeros, and what is behind the one at 94 is there.
fn are_fields(bytes: &[u8]) -> bool {
    for (offset, _, _, _) in RELOCATIONS {
        if !is_zero(bytes, *offset as usize) {
            return false;
        }
    }
    bytes.len() == 129 && !is_zero(bytes, 102)
}

#[test]
fn trees_are_placed(rt: HostRuntime) -> Result<(), Fail> {
    placed_trees_are_moved();
    placed_entries_are_moved();
    placed_frames_are_moved();
    placed_lines_are_moved();
    let alloc = rt.alloc();
    let tree = tree_of(alloc, ROWS)?;
    let abbreviations = abbreviations_of(alloc, tree.as_slice())?;
    match content_of(alloc, abbreviations.as_slice(), tree.as_slice())? {
        None => assert!(rt; false),
        Some(content) => {
            assert!(rt; are_wanted(content.relocations.as_slice()));
            assert!(rt; are_fields(content.bytes.as_slice()));
        }
    }
    Ok(())
}
