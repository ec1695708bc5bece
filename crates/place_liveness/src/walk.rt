//! Backward liveness of a place along the items of a block.

ghost use Rattle.std.specs.Prelude.{◌≡◌};
ghost use Rattle.place_liveness.specs.Alone.{live_alone, live_by, passes_up};

use crate::step::{live_across, live_before, live_past};
use pass_liveness::mir_func_crate::block::Block;
use pass_liveness::mir_func_crate::item::Item;
use pass_liveness::mir_func_crate::successors::id_at;
use pass_liveness::rv64_instr_crate::base_ids_crate::function_ids::BlockId;
use pass_liveness::rv64_instr_crate::place::Place;

/// Whether a place is live at the start of the block of this index, if it is live at the start of the target and at
/// that of no other block; false if there is no block of this index.
pub fn live_by(blocks: &[Block], place: &Place, block: usize, target: &Option<BlockId>) -> bool
    ensures { result ≡ live_by blocks.now place.now block target.now }
{
    match blocks.get(block) {
        Some(b) => live_alone(b.items.as_slice(), id_at(blocks, block + 1), place, target),
        None => false,
    }
}

/// Whether liveness goes up from the start of a block to that of another one.
pub fn passes_up(blocks: &[Block], place: &Place, from: usize, to: usize) -> bool
    ensures { result ≡ passes_up blocks.now place.now from to }
{
    let target = id_at(blocks, from);
    live_by(blocks, place, to, &target)
}

#[tactic(auto, using(crate::proofs::Walked::walked_ends))]
/// The same before these items, the last ones of a block, if the block with this number comes next.
fn live_alone(
    items: &[Item],
    next: Option<BlockId>,
    place: &Place,
    target: &Option<BlockId>,
) -> bool
    ensures { result ≡ live_alone items.now next place.now target.now }
{
    let mut live = live_past(next, target);
    let mut above = items;
    while let Some((item, rest)) = above.split_last() {
        let below = live_across(item.kind.exit(), live, target);
        live = live_before(&item.kind, below, place);
        above = rest;
    }
    live
}
