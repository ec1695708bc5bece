//! Blocks.

ghost use Rattle.std.specs.Prelude.{◌≡◌, IfOk};

use crate::item::{Items, copy_items};
use rv64_instr::base_ids_crate::function_ids::BlockId;
use rv64_instr::base_list_crate::List;
use std::alloc::{AllocError, Global};

/// A block of a function (LLVM: `MachineBasicBlock`).
#[derive(Debug, Drop)]
pub struct Block {
    /// The N of `bb.N`.
    pub id: BlockId,
    /// Its items, in order.
    pub items: Items,
    /// The index of the block's end in the source (its silent position): the number of items that were read.
    /// No pass changes it.
    pub source_end: u32,
}

/// The blocks of a function, in the order of the text.
pub type Blocks = List<Block>;

impl Block {
    /// An equal block.
    pub fn copy(&self, alloc: Global) -> Result<Block, AllocError>
        ensures { IfOk result (λ copied. copied ≡ self.now) }
    {
        Ok(Block {
            id: self.id,
            items: copy_items(alloc, self.items.as_slice())?,
            source_end: self.source_end,
        })
    }
}

/// Equal blocks.
pub fn copy_blocks(alloc: Global, blocks: &[Block]) -> Result<Blocks, AllocError>
    ensures { IfOk result (λ copied. copied ≡ blocks.now) }
{
    let mut copied = Blocks::new(alloc);
    for b in blocks {
        copied.push(b.copy(alloc)?)?;
    }
    Ok(copied)
}
