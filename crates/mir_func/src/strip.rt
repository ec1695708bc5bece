//! Functions without their debug items.

ghost use Rattle.std.specs.Prelude.{◌≡◌, IfOk};
ghost use Rattle.mir_func.specs.Strip.{stripped_item, stripped_items, stripped_block, stripped_blocks, stripped};

use crate::block::{Block, Blocks};
use crate::func::Func;
use crate::item::{Item, ItemKind, Items};
use std::alloc::{AllocError, Global};

/// The function without its debug values, DBG_PHIs and debug instruction numbers: what the machine
/// runs of it.
pub fn strip(alloc: Global, f: &Func) -> Result<Func, AllocError>
    ensures { IfOk result (λ s. s ≡ stripped f.now) }
{
    Ok(Func {
        name: f.name.copy()?,
        slots: f.slots.copy()?,
        objects: f.objects.copy()?,
        blocks: strip_blocks(alloc, f.blocks.as_slice())?,
    })
}

fn strip_blocks(alloc: Global, blocks: &[Block]) -> Result<Blocks, AllocError>
    ensures { IfOk result (λ s. s ≡ stripped_blocks blocks.now) }
{
    let mut stripped = Blocks::new(alloc);
    for b in blocks {
        stripped.push(strip_block(alloc, b)?)?;
    }
    Ok(stripped)
}

fn strip_block(alloc: Global, b: &Block) -> Result<Block, AllocError>
    ensures { IfOk result (λ s. s ≡ stripped_block b.now) }
{
    Ok(Block {
        id: b.id,
        items: strip_items(alloc, b.items.as_slice())?,
        source_end: b.source_end,
    })
}

fn strip_items(alloc: Global, items: &[Item]) -> Result<Items, AllocError>
    ensures { IfOk result (λ s. s ≡ stripped_items items.now) }
{
    let mut stripped = Items::new(alloc);
    for i in items {
        if let Some(s) = strip_item(i)? {
            stripped.push(s)?;
        }
    }
    Ok(stripped)
}

/// An item without its debug instruction number, or none for a debug item.
fn strip_item(i: &Item) -> Result<Option<Item>, AllocError>
    ensures { IfOk result (λ s. s ≡ stripped_item i.now) }
{
    match &i.kind {
        ItemKind::Code(instr, _) => Ok(Some(Item {
            kind: ItemKind::Code(instr.copy()?, None),
            origin: i.origin,
            loc: i.loc,
        })),
        ItemKind::Mark(_, _) | ItemKind::Phi(_, _) => Ok(None),
    }
}
