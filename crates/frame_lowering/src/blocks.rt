//! The blocks of a function with its frame.

ghost use Rattle.std.specs.Prelude.{◌≡◌, ◌≤◌, ◌++◌, IfOk, OnOk, map};
ghost use Rattle.mir_func.specs.Limits.{MAX_FRAME};
ghost use Rattle.frame_lowering.specs.steps.Framing.{
  framed_item_in,
  framed_items_in,
  framed_block_in,
  prologue_block_in,
  framed_blocks_in,
};

use crate::added::{prologue, push_epilogue};
use crate::frame::Frame;
use crate::rename::renamed;
use mir_func::block::{Block, Blocks};
use mir_func::item::{Item, Items};
use std::alloc::{AllocError, Global};

/// The prologue block, and the blocks with their epilogues.
pub fn framed_blocks(alloc: Global, frame: &Frame, blocks: &[Block]) -> Result<Blocks, AllocError>
    requires { frame.now.size ≤ MAX_FRAME }
    ensures { IfOk result (λ made. made ≡ framed_blocks_in frame.now blocks.now) }
{
    let mut made = Blocks::new(alloc);
    if let Some(first) = blocks.first() {
        made.push(prologue_block(alloc, frame, first)?)?;
    }
    push_blocks(alloc, frame, blocks, &mut made)?;
    Ok(made)
}

/// The prologue block has the number and the silent index of the block after it.
fn prologue_block(alloc: Global, frame: &Frame, b: &Block) -> Result<Block, AllocError>
    requires { frame.now.size ≤ MAX_FRAME }
    ensures { IfOk result (λ made. made ≡ prologue_block_in frame.now b.now) }
{
    Ok(Block {
        id: b.id,
        items: prologue(alloc, frame, b.id)?,
        source_end: b.source_end,
    })
}

fn push_blocks(
    alloc: Global,
    frame: &Frame,
    blocks: &[Block],
    made: &mut Blocks,
) -> Result<(), AllocError>
    requires { frame.now.size ≤ MAX_FRAME }
    ensures { OnOk result (made.new ≡ made.old ++ map (framed_block_in frame.now) blocks.now) }
{
    for b in blocks {
        made.push(framed_block(alloc, frame, b)?)?;
    }
    Ok(())
}

fn framed_block(alloc: Global, frame: &Frame, b: &Block) -> Result<Block, AllocError>
    requires { frame.now.size ≤ MAX_FRAME }
    ensures { IfOk result (λ made. made ≡ framed_block_in frame.now b.now) }
{
    Ok(Block {
        id: b.id,
        items: framed_items(alloc, frame, b.items.as_slice())?,
        source_end: b.source_end,
    })
}

fn framed_items(alloc: Global, frame: &Frame, items: &[Item]) -> Result<Items, AllocError>
    requires { frame.now.size ≤ MAX_FRAME }
    ensures { IfOk result (λ made. made ≡ framed_items_in frame.now items.now) }
{
    let mut made = Items::new(alloc);
    for i in items {
        push_item(alloc, frame, i, &mut made)?;
    }
    Ok(made)
}

/// Appends an item, and the epilogue before one that leads back to the caller.
fn push_item(alloc: Global, frame: &Frame, i: &Item, made: &mut Items) -> Result<(), AllocError>
    requires { frame.now.size ≤ MAX_FRAME }
    ensures { OnOk result (made.new ≡ made.old ++ framed_item_in frame.now i.now) }
{
    if i.kind.leads_back() {
        push_epilogue(alloc, frame, i.origin, made)?;
    }
    made.push(renamed(alloc, &frame.slots, i)?)
}
