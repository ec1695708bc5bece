//! Points of a function with its frame.

ghost use Rattle.std.specs.Prelude.{◌≡◌, ◌<◌, ◌≤◌, IfOk, Some, length, slice_get};
ghost use Rattle.mir_func.specs.declared.block.Block.{Block};
ghost use Rattle.mir_func.specs.Successors.{pos_in};
ghost use Rattle.value_tracker.specs.Things.{AreThings};
ghost use Rattle.location_ranges.specs.Stands.{AreValuesOf};
ghost use Rattle.value_queries.specs.Sitting.{IsPointOf, position};

use crate::stand::stand_before;
use location_ranges::transfer_tracker::TransferTracker;
use location_ranges::values::Values;
use mir_func::block::Block;
use std::alloc::{AllocError, Global};
use value_tracker::index::{TrackedIndex, index_of};

/// The analysis before an item of a block, or after its last one. Queries on it take no memory.
#[derive(Drop)]
pub struct QueryPoint {
    /// The positions of constants and pairs in the list of tracked entities.
    pub index: TrackedIndex,
    /// The walk's state there.
    pub stand: TransferTracker,
}

/// The point before an item of a block, or after its last one, by a walk from the start of the block. The error is out
/// of memory.
pub fn point_at(
    alloc: Global,
    values: &Values,
    blocks: &[Block],
    block: usize,
    item: usize,
) -> Result<QueryPoint, AllocError>
    requires things { AreThings values.now.variables.now values.now.things.now }
    requires parts { length values.now.variables.now ≤ length values.now.things.now }
    requires entries { length values.now.entries.now ≡ length blocks.now }
    requires block { block < length blocks.now }
    requires item { (b : Block) → slice_get blocks.now block ≡ Some b → item ≤ length b.items }
    ensures point { IfOk result (λ p. AreValuesOf blocks.now values.now → IsPointOf blocks.now values.now p) }
    ensures position { IfOk result (λ p. position p ≡ pos_in block item) }
{
    let index = index_of(alloc, values.things)?;
    let stand = stand_before(alloc, values, &index, blocks, block, item)?;
    Ok(QueryPoint { index, stand })
}
