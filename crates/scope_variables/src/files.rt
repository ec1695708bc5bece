//! The nodes that are `DILexicalBlockFile`.

ghost use Rattle.std.specs.Prelude.{◌≡◌, ℕ, IfOk};
ghost use Rattle.std.specs.Ordering.{nat_cmp};
ghost use Rattle.std.specs.BTreeSet.{contains};
ghost use Rattle.scope_variables.specs.Nodes.{is_file_block};

use crate::nodes::file_block_at;
use read_debug_nodes::metadata::DebugMetadata;
use std::alloc::{AllocError, Global};
use std::collections::BTreeSet;

/// The nodes that are `DILexicalBlockFile`. The error is out of memory.
pub fn file_blocks(alloc: Global, debug: &DebugMetadata) -> Result<BTreeSet<u32>, AllocError>
    ensures { IfOk result (λ files. (n : ℕ) → contains nat_cmp files n ≡ is_file_block debug.now n) }
{
    let numbers = debug.numbers(alloc)?;
    let mut files = BTreeSet::new(alloc);
    for number in numbers.as_slice() {
        if file_block_at(debug, *number).is_some() {
            files.insert(number.number())?;
        }
    }
    Ok(files)
}
