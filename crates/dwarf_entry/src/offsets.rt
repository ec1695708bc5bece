//! Where the items of a tree are in its section.

ghost use Rattle.std.specs.Prelude.{◌<◌, ◌^◌, length, IfOk};
ghost use Rattle.dwarf_entry.specs.Entries.{spelling};
ghost use Rattle.dwarf_entry.specs.steps.Offsets.{AreOffsets};

use crate::abbreviation::Abbreviation;
use crate::size::item_len;
use crate::tree::TreeItem;
use std::alloc::{AllocError, Global};

/// The bytes of the unit's header.
const HEADER: usize = 12;

/// The offset of each item from the unit's first byte. The error is out of memory.
pub fn item_offsets(
    alloc: Global,
    abbreviations: &[Abbreviation],
    tree: &[TreeItem],
) -> Result<Vec<u32>, AllocError>
    requires { length (spelling abbreviations.now tree.now) < 2 ^ 31 }
    ensures { IfOk result (λ offsets. AreOffsets abbreviations.now tree.now offsets.items) }
{
    let mut offsets = Vec::with_capacity(alloc, tree.len())?;
    let mut at = HEADER;
    for item in tree {
        offsets.push(at as u32)?;
        at += item_len(abbreviations, item);
    }
    Ok(offsets)
}
