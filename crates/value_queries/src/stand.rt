//! The walk's state before an item, and the index of a part.

ghost use Rattle.std.specs.Prelude.{◌≡◌, ◌<◌, ◌≤◌, Contains, IfOk, IfSome, IsNone, Some, length, slice_get};
ghost use Rattle.mir_func.specs.declared.block.Block.{Block};
ghost use Rattle.value_tracker.specs.Things.{AreThings, Indexes};
ghost use Rattle.location_ranges.specs.Stands.{AreValuesOf, Stands, Fits};

use location_ranges::transfer_tracker::{TransferTracker, enter, move_to};
use location_ranges::values::Values;
use mir_func::block::Block;
use mir_func::variable::VarId;
use std::alloc::{AllocError, Global};
use value_tracker::index::TrackedIndex;
use value_tracker::part_list::PartList;

/// The walk's state before an item of a block, or after its last one. The error is out of memory.
pub fn stand_before(
    alloc: Global,
    values: &Values,
    index: &TrackedIndex,
    blocks: &[Block],
    block: usize,
    item: usize,
) -> Result<TransferTracker, AllocError>
    requires things { AreThings values.now.variables.now values.now.things.now }
    requires parts { length values.now.variables.now ≤ length values.now.things.now }
    requires entries { length values.now.entries.now ≡ length blocks.now }
    requires index { Indexes values.now.things.now index.now }
    requires block { block < length blocks.now }
    requires item { (b : Block) → slice_get blocks.now block ≡ Some b → item ≤ length b.items }
    ensures stands { IfOk result (λ s. AreValuesOf blocks.now values.now → Stands blocks.now values.now index.now s) }
    ensures block { IfOk result (λ s. s.block ≡ block) }
    ensures item { IfOk result (λ s. s.item ≡ item) }
    ensures fits { IfOk result (λ s. Fits s values.now) }
{
    let items = blocks[block].items.as_slice();
    let stand = enter(alloc, values, index, block)?;
    Ok(move_to(alloc, values, index, stand, block, items, item)?)
}

/// The index of a part in a list, or None if it isn't in it.
pub fn index_in(parts: &PartList, part: &VarId) -> Option<usize>
    ensures some { IfSome result (λ j. slice_get parts.now j ≡ Some part.now) }
    ensures none { IsNone result → Contains parts.now part.now → ⊥ }
{
    position_of(parts.as_slice(), part)
}

fn position_of(parts: &[VarId], part: &VarId) -> Option<usize>
    ensures some { IfSome result (λ j. slice_get parts.now j ≡ Some part.now) }
    ensures none { IsNone result → Contains parts.now part.now → ⊥ }
{
    for j in 0..parts.len() {
        if parts[j] == *part {
            return Some(j);
        }
    }
    None
}
