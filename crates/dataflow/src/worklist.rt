//! The worklist of the solver.

ghost use Rattle.std.specs.Prelude.{◌≡◌, ◌+◌, ◌≤◌, length, IfOk, OnOk, OnSome};
ghost use Rattle.std.specs.VecDeque.{deque_len};

use std::alloc::{AllocError, Global};
use std::collections::VecDeque;

/// The blocks that are still to be visited, first in, first out. Blocks are named by their indices, and none waits
/// twice.
#[derive(Drop)]
pub(crate) struct Worklist {
    queue: VecDeque<u32>,
    waiting: Vec<bool>,
}

impl Worklist {
    /// The worklist that has all blocks, in this order.
    pub(crate) fn new(alloc: Global, order: &[u32]) -> Result<Worklist, AllocError>
        ensures { IfOk result (λ w. deque_len w.queue ≡ length order.now) }
    {
        let mut queue = VecDeque::with_capacity(alloc, order.len())?;
        let mut waiting = Vec::with_capacity(alloc, order.len())?;
        for block in order {
            queue.push_back(*block)?;
            waiting.push(true)?;
        }
        Ok(Worklist { queue, waiting })
    }

    /// Adds those of these blocks that don't wait yet.
    pub(crate) fn add_all(&mut self, blocks: &[u32]) -> Result<(), AllocError>
        ensures { OnOk result (deque_len self.new.queue ≤ deque_len self.old.queue + length blocks.now) }
    {
        for block in blocks {
            self.add(*block)?;
        }
        Ok(())
    }

    fn add(&mut self, block: u32) -> Result<(), AllocError>
        ensures { OnOk result (deque_len self.new.queue ≤ deque_len self.old.queue + 1) }
    {
        let index = block as usize;
        if index < self.waiting.len() && !self.waiting[index] {
            self.waiting[index] = true;
            self.queue.push_back(block)?;
        }
        Ok(())
    }

    /// Takes out the block that has waited longest.
    pub(crate) fn take(&mut self) -> Option<usize>
        ensures { OnSome result (deque_len self.new.queue + 1 ≡ deque_len self.old.queue) }
    {
        match self.queue.pop_front() {
            None => None,
            Some(block) => {
                let index = block as usize;
                if index < self.waiting.len() {
                    self.waiting[index] = false;
                }
                Some(index)
            }
        }
    }
}
