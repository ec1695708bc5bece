//! Indices of blocks, by their numbers.

ghost use Rattle.std.specs.Prelude.{◌≡◌, ◌<◌, [], MatchOption, length, drop};
ghost use Rattle.mir_func.specs.Sound.{AreApart, ids_of};
ghost use Rattle.mir_func.specs.Graph.{from_block};

use base_ids::function_ids::BlockId;
use mir_func::block::Block;
use std::alloc::{AllocError, Global};
use std::collections::HashMap;

/// Probable indices of blocks, by their numbers.
pub type Places = HashMap<u32, usize>;

/// The index of the block with this number. The block is searched for only if it isn't at its probable index.
pub fn find(probable: &Places, blocks: &[Block], id: BlockId) -> Option<usize>
    requires { AreApart (ids_of blocks.now) }
    ensures { MatchOption result (from_block blocks.now id ≡ [])
        (λ i. (i < length blocks.now) × (from_block blocks.now id ≡ drop i blocks.now)) }
{
    if let Some(i) = probable.get(&id.number()).copied() {
        if i < blocks.len() && blocks[i].id == id {
            return Some(i);
        }
    }
    for (i, b) in blocks.iter().enumerate() {
        if b.id == id {
            return Some(i);
        }
    }
    None
}

/// The indices of the blocks.
pub fn places(alloc: Global, blocks: &[Block]) -> Result<Places, AllocError> {
    let mut places = HashMap::new(alloc);
    for (i, b) in blocks.iter().enumerate() {
        places.insert(b.id.number(), i)?;
    }
    Ok(places)
}
