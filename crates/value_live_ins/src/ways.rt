//! The successors of a block.

ghost use Rattle.std.specs.Prelude.{◌≡◌, ◌<◌, map, IfOk, length, Some};
ghost use Rattle.std.specs.HashMap.{get};
ghost use Rattle.mir_func.specs.declared.block.Block.{Block};
ghost use Rattle.mir_func.specs.Successors.{ways};
ghost use Rattle.value_live_ins.specs.steps.Ways.{enter_by, FindsIds};

use base_ids::function_ids::BlockId;
use dataflow::graph::Ways;
use mir_func::block::Block;
use mir_func::exit::Exit;
use mir_func::item::Item;
use std::alloc::{AllocError, Global};
use std::collections::HashMap;

/// The indices of blocks by their numbers. The prologue's number leads to the block after it.
pub type Indices = HashMap<u32, u32>;

/// The indices of all blocks but the prologue. The error is out of memory.
pub fn indices_of(alloc: Global, blocks: &[Block]) -> Result<Indices, AllocError>
    requires { length blocks.now < 4294967296 }
    ensures { IfOk result (λ t. FindsIds (length blocks.now) blocks.now t) }
{
    let mut indices = HashMap::new(alloc);
    for i in 1..blocks.len() {
        indices.insert(blocks[i].id.number(), i as u32)?;
    }
    Ok(indices)
}

/// The index of the block with this number, or 0 if there is none.
fn enter(indices: &Indices, n: BlockId) -> u32
    ensures { result ≡ enter_by indices.now n }
{
    match indices.get(&n.number()) {
        None => 0,
        Some(i) => *i,
    }
}

/// The indices of the successors of a block with these items. The block after it has the number `next`.
pub fn ways_of(
    alloc: Global,
    indices: &Indices,
    items: &[Item],
    next: Option<BlockId>,
) -> Result<Ways, AllocError>
    ensures { IfOk result (λ found. found ≡ map (enter_by indices.now) (ways items.now next)) }
{
    let mut found = Ways::new(alloc);
    for item in items {
        match item.kind.exit() {
            Exit::Onward => {}
            Exit::Perhaps(n) => {
                found.push(enter(indices, n))?;
            }
            Exit::Always(n) => {
                found.push(enter(indices, n))?;
                return Ok(found);
            }
            Exit::Final => return Ok(found),
        }
    }
    match next {
        None => Ok(found),
        Some(n) => {
            found.push(enter(indices, n))?;
            Ok(found)
        }
    }
}
