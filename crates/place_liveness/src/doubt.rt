//! Where it is in doubt whether a place is live.

ghost use Rattle.std.specs.Prelude.{◌≡◌, ◌<◌, IfOk, length, false, slice_index_or};
ghost use Rattle.std.specs.List.{filter, list_any};
ghost use Rattle.place_liveness.specs.Renewal.{is_doubted, is_held_by, is_held, AreHeld};

use crate::walk::{live_by, passes_up};
use graph_spread::dataflow_crate::graph::Ways;
use pass_liveness::mir_func_crate::block::Block;
use pass_liveness::rv64_instr_crate::place::Place;
use std::alloc::{AllocError, Global};

/// The flag of a block; false if there is none.
pub fn flag(flags: &[bool], block: usize) -> bool
    ensures { result ≡ slice_index_or flags.now block false }
{
    match flags.get(block) {
        Some(set) => *set,
        None => false,
    }
}

/// Those of the blocks `lost` at whose starts the place was live and that don't use it any more before they set it.
pub fn doubted(
    alloc: Global,
    blocks: &[Block],
    place: &Place,
    before: &[bool],
    lost: &[u32],
) -> Result<Vec<u32>, AllocError>
    ensures { IfOk result (λ doubted. doubted.items
        ≡ filter (is_doubted blocks.now place.now before.now) lost.now) }
{
    let mut doubted = Vec::from_slice(alloc, lost)?;
    doubted.retain(|b| is_doubted(blocks, place, before, *b as usize));
    Ok(doubted)
}

fn is_doubted(blocks: &[Block], place: &Place, before: &[bool], block: usize) -> bool
    ensures { result ≡ is_doubted blocks.now place.now before.now block }
{
    flag(before, block) && !live_by(blocks, place, block, &None)
}

/// The blocks in doubt at whose starts the place is live by a successor that isn't in doubt.
pub fn held(
    alloc: Global,
    blocks: &[Block],
    place: &Place,
    before: &[bool],
    doubted: &[bool],
    down: &[Ways],
) -> Result<Vec<u32>, AllocError>
    requires few { length blocks.now < 4294967296 }
    requires long { length down.now ≡ length blocks.now }
    ensures { IfOk result (λ held.
        AreHeld blocks.now place.now before.now doubted.now down.now (length blocks.now) held.items) }
{
    let mut held = Vec::new(alloc);
    for block in 0..blocks.len() {
        let successors = down[block].as_slice();
        if is_held(blocks, place, before, doubted, block, successors) {
            held.push(block as u32)?;
        }
    }
    Ok(held)
}

/// Whether a block is in doubt, and one of these successors holds it.
fn is_held(
    blocks: &[Block],
    place: &Place,
    before: &[bool],
    doubted: &[bool],
    block: usize,
    successors: &[u32],
) -> bool
    ensures { result ≡ is_held blocks.now place.now before.now doubted.now block successors.now }
{
    flag(doubted, block) && is_held_by_one(blocks, place, before, doubted, block, successors)
}

fn is_held_by_one(
    blocks: &[Block],
    place: &Place,
    before: &[bool],
    doubted: &[bool],
    block: usize,
    successors: &[u32],
) -> bool
    ensures { result ≡ list_any (λ m. is_held_by blocks.now place.now before.now doubted.now block m) successors.now }
{
    successors.iter().any(|m| is_held_by(blocks, place, before, doubted, block, *m as usize))
}

/// Whether the place was live at the start of a successor that isn't in doubt, and so is at that of the block.
fn is_held_by(
    blocks: &[Block],
    place: &Place,
    before: &[bool],
    doubted: &[bool],
    block: usize,
    successor: usize,
) -> bool
    ensures { result ≡ is_held_by blocks.now place.now before.now doubted.now block successor }
{
    flag(before, successor)
        && (!flag(doubted, successor) && passes_up(blocks, place, successor, block))
}
