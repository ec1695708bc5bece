//! The search for nodes from which each walk ends. A node is visited again where a successor that it waited for is
//! marked, so each edge is looked at once.

ghost use Rattle.std.specs.Prelude.{◌≡◌, ◌+◌, ◌∷◌, [], ◌<◌, ◌≤◌, ℕ, List, length, All, IfOk, OnOk, false, replicate};
ghost use Rattle.dataflow.specs.Graph.{IsGraph, AreBlocks};
ghost use Rattle.graph_cycles.specs.steps.Search.{IsFirstUnmarked, IsSearch, AreOpen, unmarked};

use dataflow::graph::Ways;
use std::alloc::{AllocError, Global};

/// What is known of each node. Nodes are named by their indices.
#[derive(Drop)]
pub(crate) struct Search {
    /// How many of its successors, from the first one on, are marked.
    pub(crate) checked: Vec<usize>,
    /// Whether each walk from it ends.
    pub(crate) marks: Vec<bool>,
    /// The marked nodes, each behind its successors.
    pub(crate) order: Vec<u32>,
    /// The marked nodes whose predecessors are still to be visited.
    pub(crate) waiting: Vec<u32>,
}

impl Search {
    /// A search of so many nodes. None is marked.
    pub(crate) fn new(alloc: Global, nodes: usize) -> Result<Search, AllocError>
        ensures checked { IfOk result (λ s. s.checked.items ≡ replicate nodes 0) }
        ensures marks { IfOk result (λ s. s.marks.items ≡ replicate nodes false) }
        ensures order { IfOk result (λ s. s.order.items ≡ []) }
        ensures waiting { IfOk result (λ s. s.waiting.items ≡ []) }
    {
        let checked = vec![in alloc; 0; nodes]?;
        let marks = vec![in alloc; false; nodes]?;
        Ok(Search {
            checked,
            marks,
            order: Vec::new(alloc),
            waiting: Vec::new(alloc),
        })
    }

    /// Visits nodes.
    pub(crate) fn visit_all(&mut self, successors: &[Ways], nodes: &[u32]) -> Result<(), AllocError>
        requires few { length successors.now < 4294967296 }
        requires graph { IsGraph successors.now }
        requires nodes { AreBlocks (length successors.now) nodes.now }
        requires search { IsSearch successors.now self.old.checked.items
            self.old.marks.items self.old.order.items self.old.waiting.items }
        ensures search { OnOk result (IsSearch successors.now self.new.checked.items
            self.new.marks.items self.new.order.items self.new.waiting.items) }
        ensures open { OnOk result (AreOpen successors.now self.old.checked.items self.old.marks.items
            self.old.waiting.items nodes.now
            → AreOpen successors.now self.new.checked.items self.new.marks.items self.new.waiting.items []) }
        ensures left { OnOk result (unmarked self.new.marks.items + length self.new.waiting.items
            ≡ unmarked self.old.marks.items + length self.old.waiting.items) }
    {
        for node in nodes {
            self.visit(successors, *node as usize)?;
        }
        Ok(())
    }

    /// Visits a node: it is marked if all its successors are.
    fn visit(&mut self, successors: &[Ways], node: usize) -> Result<(), AllocError>
        requires few { length successors.now < 4294967296 }
        requires graph { IsGraph successors.now }
        requires node { node < length successors.now }
        requires search { IsSearch successors.now self.old.checked.items
            self.old.marks.items self.old.order.items self.old.waiting.items }
        ensures search { OnOk result (IsSearch successors.now self.new.checked.items
            self.new.marks.items self.new.order.items self.new.waiting.items) }
        ensures open { OnOk result ((due : List ℕ)
            → AreOpen successors.now self.old.checked.items self.old.marks.items self.old.waiting.items (node ∷ due)
            → AreOpen successors.now self.new.checked.items self.new.marks.items self.new.waiting.items due) }
        ensures left { OnOk result (unmarked self.new.marks.items + length self.new.waiting.items
            ≡ unmarked self.old.marks.items + length self.old.waiting.items) }
    {
        if self.marks[node] {
            return Ok(());
        }
        let ways = successors[node].as_slice();
        let count = first_unmarked(ways, self.marks.as_slice(), self.checked[node]);
        self.checked[node] = count;
        if count == ways.len() {
            self.marks[node] = true;
            self.order.push(node as u32)?;
            self.waiting.push(node as u32)?;
        }
        Ok(())
    }
}

/// The number of the first node from `start` on that isn't marked; the number of all if there is none.
fn first_unmarked(ways: &[u32], marks: &[bool], start: usize) -> usize
    requires inside { start ≤ length ways.now }
    requires nodes { AreBlocks (length marks.now) ways.now }
    ensures { IsFirstUnmarked ways.now marks.now start result }
{
    for k in start..ways.len() {
        if !marks[ways[k] as usize] {
            return k;
        }
    }
    ways.len()
}
