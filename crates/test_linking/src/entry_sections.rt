//! The two sections of a tree, as another writer of DWARF has them.

use crate::rows::ROWS;
use crate::tree::{items_refer, tree_of};
use dwarf_entry::abbreviation::{Abbreviation, abbreviations_of, write_abbreviations};
use dwarf_entry::size::entries_size;
use dwarf_entry::tree::TreeItem;
use dwarf_entry::write::write_entries;
use std::alloc::Global;
use std::test::Fail;
use unit_entries::laws::{inlined_sections_are_of_the_tree, sections_are_of_the_tree};

/// The section `.debug_abbrev`.
static DECLARATIONS: &[u8] = &[
    1, 0x11, 1, 0x13, 5, 3, 8, 0x10, 0x17, 0x11, 1, 0x12, 6, 0x8c, 1, 0x17, 0x74, 0x17, 0, 0, 2,
    0x24, 0, 3, 8, 0xb, 0xb, 0x3e, 0xb, 0, 0, 3, 0x13, 1, 3, 8, 0xb, 0xf, 0, 0, 4, 0xd, 0, 3, 8,
    0x49, 0x13, 0x38, 0xf, 0, 0, 5, 0xf, 0, 0xb, 0xb, 0x49, 0x13, 0, 0, 6, 4, 1, 0xb, 0xf, 0, 0, 7,
    0x28, 0, 3, 8, 0x1c, 0xd, 0, 0, 8, 0x13, 0, 3, 8, 0x3c, 0x19, 0, 0, 9, 0x2e, 1, 3, 8, 0x3f,
    0xc, 0x11, 1, 0x12, 6, 0x40, 0x18, 0, 0, 0xa, 0x34, 0, 3, 8, 0x49, 0x13, 2, 0x22, 0, 0, 0xb,
    0xb, 1, 0x55, 0x23, 0, 0, 0,
];

/// The section `.debug_info`.
static ENTRIES: &[u8] = &[
    0x7d, 0, 0, 0, 5, 0, 1, 8, 0, 0, 0, 0, 1, 0x1d, 0, 0x74, 0x2e, 0x63, 0, 0, 0, 0, 0, 0, 0, 0, 0,
    0, 0, 0, 0, 0x18, 0, 0, 0, 0xc, 0, 0, 0, 0xc, 0, 0, 0, 2, 0x6c, 0x6f, 0x6e, 0x67, 0, 8, 5, 3,
    0x6e, 0, 0x10, 4, 0x6e, 0x65, 0x78, 0x74, 0, 0x43, 0, 0, 0, 0, 0, 5, 8, 0x33, 0, 0, 0, 6, 4, 7,
    0x6c, 0x6f, 0x77, 0, 0x7f, 0, 8, 0x68, 0x69, 0x64, 0x64, 0x65, 0x6e, 0, 9, 0x66, 0, 1, 0x10, 0,
    0, 0, 0, 0, 0, 0, 8, 0, 0, 0, 1, 0x9c, 0xa, 0x70, 0, 0x43, 0, 0, 0, 0, 0xb, 0, 0xa, 0x70, 0,
    0x2b, 0, 0, 0, 1, 0, 0, 0,
];

/// Whether the section of a tree is this one, and its size is as told.
fn is_section(alloc: Global, abbreviations: &[Abbreviation], tree: &[TreeItem]) -> bool {
    if !items_refer(tree.len(), tree) {
        return false;
    }
    let Some(size) = entries_size(abbreviations, tree) else {
        return false;
    };
    match write_entries(alloc, abbreviations, tree) {
        Ok(written) => written.as_slice() == ENTRIES && ENTRIES.len() == size as usize,
        Err(_) => false,
    }
}

#[test]
fn trees_are_written(rt: HostRuntime) -> Result<(), Fail> {
    sections_are_of_the_tree();
    inlined_sections_are_of_the_tree();
    let alloc = rt.alloc();
    let tree = tree_of(alloc, ROWS)?;
    let abbreviations = abbreviations_of(alloc, tree.as_slice())?;
    let declarations = write_abbreviations(alloc, abbreviations.as_slice())?;
    assert!(rt; declarations.as_slice() == DECLARATIONS);
    assert!(rt; is_section(alloc, abbreviations.as_slice(), tree.as_slice()));
    Ok(())
}
