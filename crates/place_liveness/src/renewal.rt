//! At the starts of which blocks a place is still live after code was removed: where that is in doubt, and where it
//! stays for all that. It takes time by the blocks that lost code, and by those that depended on them.

ghost use Rattle.std.specs.Prelude.{◌≡◌, ◌<◌, All, IfOk, length};
ghost use Rattle.pass_liveness.specs.mir_func.Function.{Function};
ghost use Rattle.place_liveness.specs.Alone.{AreWaysDown, AreWaysUp, AreLiveStarts};
ghost use Rattle.place_liveness.specs.Renewal.{IsThinner, doubts_up, stays_up, is_still_live, AreStillLive};

use crate::doubt::{doubted, flag, held};
use crate::walk::{live_by, passes_up};
use graph_spread::dataflow_crate::graph::Ways;
use graph_spread::spread::{Crossing, spread};
use pass_liveness::mir_func_crate::block::Block;
use pass_liveness::mir_func_crate::func::Func;
use pass_liveness::rv64_instr_crate::place::Place;
use std::alloc::{AllocError, Global};

/// How doubt of a place's liveness goes from the start of a block to those of blocks from which control goes there.
#[derive(Drop)]
struct Doubting<'a> {
    blocks: &'a [Block],
    place: &'a Place,
}

impl<'a> Crossing for Doubting<'a> {
    ghost nodes = { λ u. length u.blocks.now };

    ghost passes = { λ u from to. doubts_up u.blocks.now u.place.now from to };

    fn crosses(&self, from: usize, to: usize) -> bool {
        passes_up(self.blocks, self.place, from, to) && !live_by(self.blocks, self.place, to, &None)
    }
}

/// How liveness of a place goes up among the blocks that are in doubt.
#[derive(Drop)]
struct Staying<'a> {
    blocks: &'a [Block],
    place: &'a Place,
    doubted: &'a [bool],
}

impl<'a> Crossing for Staying<'a> {
    ghost nodes = { λ u. length u.blocks.now };

    ghost passes = { λ u from to. stays_up u.blocks.now u.place.now u.doubted.now from to };

    fn crosses(&self, from: usize, to: usize) -> bool {
        flag(self.doubted, to) && passes_up(self.blocks, self.place, from, to)
    }
}

/// At the starts of which blocks of a function a place is live, each with a flag, if these flags tell it of the function
/// before code of the blocks `lost` was removed from it. `down` and `up` are the ways that `ways_down` and `ways_up`
/// tell. The error is out of memory.
pub fn still_live(
    alloc: Global,
    f: &Func,
    down: &[Ways],
    up: &[Ways],
    place: &Place,
    before: &[bool],
    lost: &[u32],
) -> Result<Vec<bool>, AllocError>
    requires down { AreWaysDown f.now.blocks down.now }
    requires up { AreWaysUp f.now.blocks up.now }
    requires long { length before.now ≡ length f.now.blocks }
    requires lost { All (λ b. b < length f.now.blocks) lost.now }
    ensures { IfOk result (λ after. (old : Function) → IsThinner old f.now place.now lost.now
        → AreLiveStarts old place.now before.now → AreLiveStarts f.now place.now after.items) }
{
    let blocks = f.blocks.as_slice();
    let first = doubted(alloc, blocks, place, before, lost)?;
    let doubting = Doubting { blocks, place };
    let flags = spread(alloc, up, &doubting, first.as_slice())?;
    let doubted = flags.as_slice();
    let held = held(alloc, blocks, place, before, doubted, down)?;
    let staying = Staying {
        blocks,
        place,
        doubted,
    };
    let stays = spread(alloc, up, &staying, held.as_slice())?;
    settled(alloc, before, doubted, stays.as_slice())
}

/// At the starts of which blocks the place is still live, by these flags.
fn settled(
    alloc: Global,
    before: &[bool],
    doubted: &[bool],
    stays: &[bool],
) -> Result<Vec<bool>, AllocError>
    ensures { IfOk result (λ after. AreStillLive before.now doubted.now stays.now after.items) }
{
    let mut after = Vec::with_capacity(alloc, before.len())?;
    for block in 0..before.len() {
        after.push(is_still_live(before, doubted, stays, block))?;
    }
    Ok(after)
}

fn is_still_live(before: &[bool], doubted: &[bool], stays: &[bool], block: usize) -> bool
    ensures { result ≡ is_still_live before.now doubted.now stays.now block }
{
    flag(before, block) && (!flag(doubted, block) || flag(stays, block))
}
