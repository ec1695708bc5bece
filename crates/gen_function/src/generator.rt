//! Generation of a function from a number.

ghost use Rattle.std.specs.Prelude.{◌≡◌, ◌+◌, ◌^◌, ◌<◌, ◌≤◌, length, IfOk};
ghost use Rattle.gen_function.specs.Generator.{placed, blocks_made, generated};
ghost use Rattle.gen_function.specs.steps.Making.{MakesBlock};

use crate::draws::Draws;
use crate::end::{push_beginning, push_end};
use crate::group::{Kinds, push_groups};
use base_ids::function_ids::{BlockId, SlotId};
use mir_func::block::{Block, Blocks};
use mir_func::func::{Func, SlotIds};
use mir_func::item::{Item, Items};
use mir_func::location::Loc;
use mir_func::object::Objects;
use mir_func::position::{Origin, Pos};
use rv64_instr::name::Name;
use std::alloc::{AllocError, Global};

/// The function of a number below 65,537 with 1 to 512 blocks, named `gen`. It has the shape of a function that was
/// read: the origin of each item is its own position.
pub fn generate(alloc: Global, number: u32, blocks: u32) -> Result<Func, AllocError>
    requires number { number < 65537 }
    requires some { 1 ≤ blocks }
    requires few { blocks ≤ 512 }
    ensures { IfOk result (λ f. f ≡ generated number blocks) }
{
    Ok(Func {
        name: Name::from_slice(alloc, b"gen")?,
        slots: SlotIds::from_slice(alloc, &[SlotId(0), SlotId(1), SlotId(2), SlotId(3)])?,
        objects: Objects::new(alloc),
        blocks: make_blocks(alloc, number, blocks)?,
    })
}

fn make_blocks(alloc: Global, number: u32, count: u32) -> Result<Blocks, AllocError>
    requires number { number < 65537 }
    requires few { count ≤ 512 }
    ensures { IfOk result (λ made. made ≡ (blocks_made count count (record { state = number; given = 0 })).blocks) }
{
    let mut draws = Draws::new(number);
    let mut blocks = Blocks::new(alloc);
    for b in 0..count {
        blocks.push(make_block(alloc, count, b, &mut draws)?)?;
    }
    Ok(blocks)
}

/// The block with this index, of `blocks` in all.
fn make_block(
    alloc: Global,
    blocks: u32,
    block: u32,
    draws: &mut Draws,
) -> Result<Block, AllocError>
    requires block { block < blocks }
    requires blocks { blocks ≤ 512 }
    requires given { draws.old.given + 6 < 2 ^ 16 }
    ensures { IfOk result (MakesBlock blocks block draws.old draws.new) }
{
    let mut kinds = Kinds::new(alloc);
    push_beginning(alloc, block, &mut kinds)?;
    push_groups(alloc, &mut kinds, draws)?;
    push_end(alloc, blocks, block, &mut kinds, draws)?;
    let source_end = kinds.len() as u32;
    Ok(Block {
        id: BlockId(block),
        items: placed(alloc, block, kinds)?,
        source_end,
    })
}

/// Items with their own positions as origins, as they are read.
fn placed(alloc: Global, block: u32, kinds: Kinds) -> Result<Items, AllocError>
    requires { length kinds < 2 ^ 32 }
    ensures { IfOk result (λ items. items ≡ placed block 0 kinds) }
{
    let mut items = Items::new(alloc);
    for kind in kinds.into_vec() {
        let origin = Origin::Kept(Pos {
            block: BlockId(block),
            item: items.len() as u32,
        });
        items.push(Item {
            kind,
            origin,
            loc: Loc::Absent,
        })?;
    }
    Ok(items)
}
