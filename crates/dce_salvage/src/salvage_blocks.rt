//! The dead copies of all blocks lose their numbers.

ghost use Rattle.std.specs.Prelude.{◌≡◌, ◌+◌, ◌++◌, ◌<◌, ◌^◌, [], ℕ, false, true, None, length, slice_get, slice_index_or, OnOk};
ghost use Rattle.mir_func.specs.Sound.{items_of};
ghost use Rattle.dce_salvage.specs.SalvageNumbers.{numbered_copy};
ghost use Rattle.dce_salvage.specs.SalvageBlocks.{BlocksSoFar, salvage_blocks, HasNoCopies};

use crate::dead_indices::{verdict, verdicts_at};
use crate::salvage_numbers::{numbered_copy, salvage_numbers};
use base_list::List;
use mir_func::block::Block;
use mir_func::item::{Item, ItemKind};
use pass_salvage::mir_substitution_crate::substitutions::Substitutions;
use pass_salvage::pass_trait_crate::loss::Loss;
use std::alloc::{AllocError, Global};

/// Removes the numbers from the dead copies of blocks, from the last block to the first, and in each from the last item
/// to the first. `dead` has for each block and each of its items whether it is dead. `fresh` is a fresh number, and is
/// incremented if it is used. Losses are appended to `lost`. After an error the blocks and the substitutions may only
/// be dropped.
pub fn salvage_blocks(
    alloc: Global,
    blocks: &mut Vec<Block>,
    dead: &[List<bool>],
    subs: &mut Substitutions,
    fresh: &mut u32,
    lost: &mut Vec<Loss>,
) -> Result<(), AllocError>
    requires fresh { fresh.old + length (items_of blocks.old.items) < 2 ^ 31 }
    ensures off { OnOk result (record {
      blocks = blocks.new.items;
      subs = subs.new;
      fresh = fresh.new;
      lost = lost.new.items;
    } ≡ salvage_blocks dead.now blocks.old.items
        (record { blocks = []; subs = subs.old; fresh = fresh.old; lost = lost.old.items })) }
{
    let mut at = blocks.len();
    while at > 0 {
        at -= 1;
        let verdicts = verdicts_at(dead, at);
        salvage_numbers(&mut blocks[at].items.items, verdicts, subs, fresh, lost)?;
    }
    Ok(())
}

/// Whether some dead item of the blocks is a numbered copy. If none is, salvaging changes nothing.
pub fn has_copies(blocks: &[Block], dead: &[List<bool>]) -> bool
    ensures { result ≡ false → (a : BlocksSoFar) → salvage_blocks dead.now blocks.now a
        ≡ record a { blocks = blocks.now ++ a.blocks } }
{
    for block in 0..blocks.len() {
        if has_copy(blocks[block].items.as_slice(), verdicts_at(dead, block)) {
            return true;
        }
    }
    false
}

/// Whether some dead one of these items is a numbered copy.
fn has_copy(items: &[Item], dead: &[bool]) -> bool
    ensures { result ≡ false → HasNoCopies dead.now items.now }
{
    for at in 0..items.len() {
        if is_copy(verdict(dead, at), &items[at].kind) {
            return true;
        }
    }
    false
}

/// Whether an item is a numbered copy and goes.
fn is_copy(goes: bool, kind: &ItemKind) -> bool
    ensures { result ≡ false → goes ≡ true → numbered_copy kind.now ≡ None }
{
    goes && numbered_copy(kind).is_some()
}
