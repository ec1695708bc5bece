//! Which items are dead, by their indices.

ghost use Rattle.std.specs.Prelude.{◌≡◌, [], false, slice_index_or};
ghost use Rattle.std.specs.List.{list_any};

use base_list::List;

/// Whether each item of the block of an index is dead; empty if there is no such block.
pub fn verdicts_at(dead: &[List<bool>], block: usize) -> &[bool]
    ensures { result.now ≡ slice_index_or dead.now block [] }
{
    match dead.get(block) {
        Some(verdicts) => verdicts.as_slice(),
        None => &[],
    }
}

/// Whether the item of an index is dead; false if there is none.
pub fn verdict(dead: &[bool], index: usize) -> bool
    ensures { result ≡ slice_index_or dead.now index false }
{
    match dead.get(index) {
        Some(goes) => *goes,
        None => false,
    }
}

/// Whether some item of a block is dead.
pub fn some_dead(dead: &[bool]) -> bool
    ensures { result ≡ list_any (λ d. d) dead.now }
{
    dead.iter().any(|d| *d)
}
