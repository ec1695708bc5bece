//! The successors of each block, by index.

ghost use Rattle.std.specs.Prelude.{◌≡◌, ◌<◌, length, IfOk, OnOk};
ghost use Rattle.mir_func.specs.Sound.{ids_of};
ghost use Rattle.dataflow.specs.Graph.{AreBlocks, IsGraph};

use crate::names::SlotAndBlockNumbers;
use base_ids::function_ids::BlockId;
use dataflow::graph::Ways;
use mir_func::func::Func;
use mir_func::successors::Successors;
use std::alloc::{AllocError, Global};

impl SlotAndBlockNumbers {
    /// The successors of each block of a function, by index. They tell a solver in which order to visit blocks and whom
    /// a change concerns; what it finds doesn't depend on them. The error is out of memory.
    pub fn successors(&self, alloc: Global, f: &Func) -> Result<Vec<Ways>, AllocError>
        requires { self.now.blocks ≡ ids_of f.now.blocks }
        ensures few { IfOk result (λ ways. length ways.items < 4294967296) }
        ensures long { IfOk result (λ ways. length ways.items ≡ length f.now.blocks) }
        ensures graph { IfOk result (λ ways. IsGraph ways.items) }
    {
        let count = f.blocks.len();
        let mut ways = Vec::with_capacity(alloc, count)?;
        for block in 0..count {
            let mut indices = Ways::new(alloc);
            self.add_all(&mut indices, f.successors(block))?;
            ways.push(indices)?;
        }
        Ok(ways)
    }

    /// Adds the indices of a block's successors.
    fn add_all(&self, ways: &mut Ways, successors: Successors) -> Result<(), AllocError>
        requires few { length self.now.blocks < 4294967296 }
        requires blocks { AreBlocks (length self.now.blocks) ways.old }
        ensures { OnOk result (AreBlocks (length self.now.blocks) ways.new) }
    {
        match successors {
            Successors::Nowhere => Ok(()),
            Successors::One(n) => self.add(ways, n),
            Successors::Two(m, n) => {
                self.add(ways, m)?;
                self.add(ways, n)
            }
        }
    }

    /// Adds the index of a block, if there is one.
    fn add(&self, ways: &mut Ways, n: BlockId) -> Result<(), AllocError>
        requires few { length self.now.blocks < 4294967296 }
        requires blocks { AreBlocks (length self.now.blocks) ways.old }
        ensures { OnOk result (AreBlocks (length self.now.blocks) ways.new) }
    {
        match self.blocks.find(n.number()) {
            None => Ok(()),
            Some(found) => {
                let index = found as u32;
                ways.push(index)
            }
        }
    }
}
