//! At the starts of which blocks a place is live.

ghost use Rattle.std.specs.Prelude.{◌+◌, ◌<◌, length, IfOk, OnOk};
ghost use Rattle.place_liveness.specs.Alone.{AreWaysUp, AreLiveStarts, AreSources, passes_up};

use crate::walk::{live_by, passes_up};
use graph_spread::dataflow_crate::graph::Ways;
use graph_spread::spread::{Crossing, spread};
use pass_liveness::mir_func_crate::block::Block;
use pass_liveness::mir_func_crate::func::Func;
use pass_liveness::rv64_instr_crate::place::Place;
use std::alloc::{AllocError, Global};

/// How liveness of a place goes from the start of a block to those of blocks from which control goes there.
#[derive(Drop)]
struct Upward<'a> {
    blocks: &'a [Block],
    place: &'a Place,
}

impl<'a> Crossing for Upward<'a> {
    ghost nodes = { λ u. length u.blocks.now };

    ghost passes = { λ u from to. passes_up u.blocks.now u.place.now from to };

    fn crosses(&self, from: usize, to: usize) -> bool {
        passes_up(self.blocks, self.place, from, to)
    }
}

/// At the starts of which blocks of a function a place is live, each with a flag. `ways` are the ways up that
/// `ways_up` tells. The error is out of memory.
pub fn live_starts(
    alloc: Global,
    f: &Func,
    ways: &[Ways],
    place: &Place,
) -> Result<Vec<bool>, AllocError>
    requires { AreWaysUp f.now.blocks ways.now }
    ensures { IfOk result (λ live. AreLiveStarts f.now place.now live.items) }
{
    let blocks = f.blocks.as_slice();
    let sources = sources(alloc, blocks, place)?;
    let upward = Upward { blocks, place };
    let live = spread(alloc, ways, &upward, sources.as_slice())?;
    Ok(live)
}

/// The blocks that use a place before they set it, by index.
fn sources(alloc: Global, blocks: &[Block], place: &Place) -> Result<Vec<u32>, AllocError>
    requires { length blocks.now < 4294967296 }
    ensures { IfOk result (λ sources. AreSources blocks.now place.now (length blocks.now) sources.items) }
{
    let mut sources = Vec::new(alloc);
    for block in 0..blocks.len() {
        source(&mut sources, blocks, place, block)?;
    }
    Ok(sources)
}

/// Adds a block, if it uses the place before it sets it.
fn source(
    sources: &mut Vec<u32>,
    blocks: &[Block],
    place: &Place,
    block: usize,
) -> Result<(), AllocError>
    requires few { length blocks.now < 4294967296 }
    requires block { block < length blocks.now }
    ensures { OnOk result (AreSources blocks.now place.now block sources.old.items
        → AreSources blocks.now place.now (block + 1) sources.new.items) }
{
    if live_by(blocks, place, block, &None) {
        let index = block as u32;
        sources.push(index)?;
        Ok(())
    } else {
        Ok(())
    }
}
