//! The flows of the blocks of a function.

ghost use Rattle.std.specs.Prelude.{◌≡◌, ◌<◌, IfOk, length, map};
ghost use Rattle.mir_func.specs.Resolve.{resolve};
ghost use Rattle.mir_func.specs.Successors.{ways};
ghost use Rattle.value_solver.specs.Entry.{thing};
ghost use Rattle.value_live_ins.specs.steps.Flowing.{next_id};
ghost use Rattle.value_live_ins.specs.Gathering.{KnowsBlocks};
ghost use Rattle.value_live_ins.specs.Walking.{IsTracking};
ghost use Rattle.value_live_ins.specs.steps.Ways.{FlowsBelow, IsFlowAt};

use crate::changes::{Tracking, changes_of};
use crate::ways::{Indices, ways_of};
use base_ids::function_ids::BlockId;
use mir_func::block::Block;
use mir_func::successors::id_at;
use std::alloc::{AllocError, Global};
use value_solver::flow::Flow;

/// The number of the next block, if there is one.
fn next_of(blocks: &[Block], b: usize) -> Option<BlockId>
    requires { b < length blocks.now }
    ensures { result ≡ next_id blocks.now b }
{
    id_at(blocks, b + 1)
}

/// The flow of the block at an index.
fn flow_of(
    alloc: Global,
    tracking: &Tracking,
    indices: &Indices,
    blocks: &[Block],
    b: usize,
) -> Result<Flow, AllocError>
    requires block { b < length blocks.now }
    requires tracking { IsTracking tracking.now }
    requires knows { KnowsBlocks (map thing tracking.now.things.now) (resolve tracking.now.subs.now) blocks.now }
    ensures { IfOk result (IsFlowAt tracking.now indices.now blocks.now b) }
{
    let items = blocks[b].items.as_slice();
    let changes = changes_of(alloc, tracking, items)?;
    let ways = ways_of(alloc, indices, items, next_of(blocks, b))?;
    Ok(Flow { changes, ways })
}

/// The flows of all blocks.
pub fn flows_of(
    alloc: Global,
    tracking: &Tracking,
    indices: &Indices,
    blocks: &[Block],
) -> Result<Vec<Flow>, AllocError>
    requires tracking { IsTracking tracking.now }
    requires knows { KnowsBlocks (map thing tracking.now.things.now) (resolve tracking.now.subs.now) blocks.now }
    ensures { IfOk result (λ flows. FlowsBelow tracking.now indices.now blocks.now (length blocks.now) flows.items) }
{
    let mut flows = Vec::with_capacity(alloc, blocks.len())?;
    for b in 0..blocks.len() {
        flows.push(flow_of(alloc, tracking, indices, blocks, b)?)?;
    }
    Ok(flows)
}
