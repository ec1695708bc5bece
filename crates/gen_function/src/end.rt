//! The first and last items of blocks.

ghost use Rattle.std.specs.Prelude.{◌≡◌, ◌+◌, ◌-◌, ◌<◌, ◌≤◌, OnOk, ◌++◌};
ghost use Rattle.gen_function.specs.Generator.{last_end, branch_end, jump_end, end_of, end, beginning};
ghost use Rattle.gen_function.specs.steps.Making.{Appends};

use crate::draws::Draws;
use crate::group::Kinds;
use crate::items::{branch, copy, jump, numbered, return_result, store};
use base_ids::function_ids::{BlockId, SlotId};
use std::alloc::{AllocError, Global};

/// The number of kinds of block ends, without that of the last block.
const ENDS: u32 = 3;

/// The number of slots of the function.
pub const SLOTS: u32 = 4;

/// x10, the register of the argument and the result; and x8, which the last block returns.
const ARGUMENT: u32 = 10;

const RETURNED: u32 = 8;

/// Appends the first items of the first block, which store its argument into each slot. Other blocks have none.
#[tactic(auto, unfolding(crate::specs::Generator::beginning))]
pub fn push_beginning(alloc: Global, block: u32, kinds: &mut Kinds) -> Result<(), AllocError>
    ensures { OnOk result (kinds.new ≡ kinds.old ++ beginning block) }
{
    if block != 0 {
        return Ok(());
    }
    kinds.push(store(alloc, numbered(ARGUMENT), SlotId(0))?)?;
    kinds.push(store(alloc, numbered(ARGUMENT), SlotId(1))?)?;
    kinds.push(store(alloc, numbered(ARGUMENT), SlotId(2))?)?;
    kinds.push(store(alloc, numbered(ARGUMENT), SlotId(3))?)
}

/// Appends the last items of a block, of `blocks` in all.
#[tactic(auto, unfolding(crate::specs::Generator::end))]
pub fn push_end(
    alloc: Global,
    blocks: u32,
    block: u32,
    kinds: &mut Kinds,
    draws: &mut Draws,
) -> Result<(), AllocError>
    requires block { block < blocks }
    requires blocks { blocks ≤ 512 }
    ensures { OnOk result (Appends (end blocks block draws.old) kinds.old kinds.new draws.new) }
{
    if block + 1 == blocks {
        return push_last(alloc, kinds);
    }
    let way = draws.below(ENDS);
    push_way(alloc, way, blocks, block, kinds, draws)
}

/// Appends the last items of the last block.
fn push_last(alloc: Global, kinds: &mut Kinds) -> Result<(), AllocError>
    ensures { OnOk result (kinds.new ≡ kinds.old ++ last_end) }
{
    kinds.push(copy(alloc, numbered(ARGUMENT), numbered(RETURNED), None)?)?;
    kinds.push(return_result(alloc)?)
}

/// Appends the last items of another block, chosen by a random number below 3.
#[tactic(auto, unfolding(crate::specs::Generator::end_of))]
fn push_way(
    alloc: Global,
    way: u32,
    blocks: u32,
    block: u32,
    kinds: &mut Kinds,
    draws: &mut Draws,
) -> Result<(), AllocError>
    requires way { way < 3 }
    requires block { block + 1 < blocks }
    requires blocks { blocks ≤ 512 }
    ensures { OnOk result (Appends (end_of way blocks block draws.old) kinds.old kinds.new draws.new) }
{
    match way {
        0 => Ok(()),
        1 => push_branch(alloc, blocks, kinds, draws),
        2 => push_jump(alloc, blocks, block, kinds, draws),
        _ => unreachable!(),
    }
}

/// Appends a branch to any block but the first.
fn push_branch(
    alloc: Global,
    blocks: u32,
    kinds: &mut Kinds,
    draws: &mut Draws,
) -> Result<(), AllocError>
    requires { 1 < blocks }
    ensures { OnOk result (Appends (branch_end blocks draws.old) kinds.old kinds.new draws.new) }
{
    let rs = draws.register();
    let target = draws.below(blocks - 1) + 1;
    kinds.push(branch(alloc, rs, BlockId(target))?)
}

/// Appends a jump to a later block.
fn push_jump(
    alloc: Global,
    blocks: u32,
    block: u32,
    kinds: &mut Kinds,
    draws: &mut Draws,
) -> Result<(), AllocError>
    requires block { block + 1 < blocks }
    requires blocks { blocks ≤ 512 }
    ensures { OnOk result (Appends (jump_end blocks block draws.old) kinds.old kinds.new draws.new) }
{
    let target = block + 1 + draws.below(blocks - 1 - block);
    kinds.push(jump(alloc, BlockId(target))?)
}
