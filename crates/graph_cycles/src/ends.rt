//! From which nodes of a graph each walk ends.

ghost use Rattle.std.specs.Prelude.{◌<◌, length, IfOk};
ghost use Rattle.dataflow.specs.Graph.{IsGraph};
ghost use Rattle.graph_cycles.specs.Ends.{AreEnds, IsEndOrder};

use crate::search::Search;
use dataflow::graph::{Ways, predecessors};
use dataflow::order::post_order;
use std::alloc::{AllocError, Global};

/// The nodes of a graph from which each walk ends.
#[derive(Drop)]
pub struct Ending {
    /// Whether it does, for each node.
    pub marks: Vec<bool>,
    /// The nodes for which it does, each behind its successors.
    pub order: Vec<u32>,
}

/// Whether each walk from a node ends, for each node of a graph: a walk that doesn't end comes to a cycle. A graph is
/// the list of each node's successors. The error is out of memory.
pub fn ends(alloc: Global, successors: &[Ways]) -> Result<Ending, AllocError>
    requires few { length successors.now < 4294967296 }
    requires graph { IsGraph successors.now }
    ensures marks { IfOk result (λ e. AreEnds successors.now e.marks.items) }
    ensures order { IfOk result (λ e. IsEndOrder successors.now e.marks.items e.order.items) }
{
    let preds = predecessors(alloc, successors)?;
    let order = post_order(alloc, successors)?;
    let mut search = Search::new(alloc, successors.len())?;
    search.visit_all(successors, order.as_slice())?;
    while let Some(node) = search.waiting.pop() {
        search.visit_all(successors, preds[node as usize].as_slice())?;
    }
    Ok(Ending {
        marks: search.marks,
        order: search.order,
    })
}
