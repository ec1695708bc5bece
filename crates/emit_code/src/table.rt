//! The number of items before each block of a function, looked up by block number.

ghost use Rattle.std.specs.Prelude.{◌≡◌, ℕ, ◌<◌, ◌+◌, ◌^◌, List, length, slice_index, IfOk};
ghost use Rattle.std.specs.Ordering.{nat_cmp};
ghost use Rattle.std.specs.BTreeMap.{get};
ghost use Rattle.mir_func.specs.declared.block.Block.{Block};
ghost use Rattle.mir_func.specs.SoundFrame.{body_of};
ghost use Rattle.emit_code.specs.steps.Places.{items_count, firsts_from, index_in, first_of, IsTableOf};

use base_ids::function_ids::BlockId;
use base_list::List;
use mir_func::block::Block;
use std::alloc::{AllocError, Global};
use std::collections::BTreeMap;

/// A table of blocks: the number of items of the function before each.
#[derive(Drop)]
pub struct Table {
    /// The number of items before a block, by the block's index, and last that of all items.
    pub firsts: List<u32>,
    /// The number of items of the function.
    pub count: u32,
    /// The index of a block by its number, the prologue (index 0) left out.
    pub indices: BTreeMap<u32, u32>,
}

impl Table {
    /// The table of a function's blocks, the prologue included. The error is out of memory.
    pub fn new(alloc: Global, blocks: &[Block]) -> Result<Table, AllocError>
        requires blocks { length blocks.now < 2 ^ 32 }
        requires items { items_count blocks.now < 2 ^ 32 }
        ensures { IfOk result (IsTableOf blocks.now) }
    {
        let firsts = firsts(alloc, blocks)?;
        let count = at(firsts.as_slice(), blocks.len());
        Ok(Table {
            firsts,
            count,
            indices: indices(alloc, blocks)?,
        })
    }

    /// The number of items before the block with this number, or of all items if there is no such block.
    pub fn first_of(&self, block: BlockId) -> u32
        ensures { (blocks : List Block) → IsTableOf blocks self.now → result ≡ first_of blocks block }
    {
        match self.indices.get(&block.number()) {
            Some(index) => self.first(*index as usize),
            None => self.count,
        }
    }

    /// The number of items before the block with this index, or 0 if there is no such index.
    pub fn first(&self, index: usize) -> u32
        ensures { result ≡ slice_index self.now.firsts index }
    {
        at(self.firsts.as_slice(), index)
    }
}

/// The number at an index, or 0.
pub fn at(numbers: &[u32], index: usize) -> u32
    ensures { result ≡ slice_index numbers.now index }
{
    match numbers.get(index) {
        Some(n) => *n,
        None => 0,
    }
}

fn firsts(alloc: Global, blocks: &[Block]) -> Result<List<u32>, AllocError>
    requires { items_count blocks.now < 2 ^ 32 }
    ensures { IfOk result (λ firsts. firsts ≡ firsts_from 0 blocks.now) }
{
    let mut firsts = List::new(alloc);
    let mut first = 0;
    for block in blocks {
        firsts.push(first)?;
        first += block.items.len() as u32;
    }
    firsts.push(first)?;
    Ok(firsts)
}

/// Of blocks with the same number the first is found: it is inserted last.
fn indices(alloc: Global, blocks: &[Block]) -> Result<BTreeMap<u32, u32>, AllocError>
    requires { length blocks.now < 2 ^ 32 }
    ensures { IfOk result (λ indices. (n : ℕ) → get nat_cmp indices n ≡ index_in 1 (body_of blocks.now) n) }
{
    let mut indices = BTreeMap::new(alloc);
    let mut index = blocks.len();
    while index > 1 {
        index -= 1;
        indices.insert(blocks[index].id.number(), index as u32)?;
    }
    Ok(indices)
}
