//! How far a fact spreads over a graph.

ghost use Rattle.std.specs.Prelude.{◌≡◌, ◌↔◌, ℕ, ◌<◌, length, Bool, IfOk, OnOk, Contains, true};
ghost use Rattle.dataflow.specs.Graph.{IsEdge, IsGraph, AreBlocks};
ghost use Rattle.graph_spread.specs.Spread.{IsIn, IsOut, Spreads, Reaching};

use crate::reach::{reach, reach_all};
use dataflow::graph::Ways;
use std::alloc::{AllocError, Global};

/// Which edges of a graph a fact crosses. Nodes are named by their indices.
pub trait Crossing {
    /// The number of nodes.
    ghost nodes: { Self → ℕ };
    /// Whether the fact crosses an edge between two nodes.
    ghost passes: { Self → (from to : ℕ) → Bool };

    /// Whether the fact crosses an edge between two nodes.
    fn crosses(&self, from: usize, to: usize) -> bool
        requires from { from < nodes self.now }
        requires to { to < nodes self.now }
        ensures { result ≡ passes self.now from to };
}

/// The nodes of a graph that a fact spreads to from its sources, each with a flag: the sources, and each node that an
/// edge which the fact crosses leads to from one of these. The error is out of memory.
pub fn spread<C: Crossing>(
    alloc: Global,
    ways: &[Ways],
    crossing: &C,
    sources: &[u32],
) -> Result<Vec<bool>, AllocError>
    requires graph { IsGraph ways.now }
    requires nodes { length ways.now ≡ C.nodes crossing.now }
    requires sources { AreBlocks (length ways.now) sources.now }
    ensures long { IfOk result (λ reached. length reached.items ≡ length ways.now) }
    ensures exact { IfOk result (λ reached.
        (n : ℕ) → IsIn reached.items n ↔ Spreads ways.now (C.passes crossing.now) sources.now n) }
{
    let mut reached = none_of(alloc, ways.len())?;
    let mut waiting = Vec::new(alloc);
    reach_all(&mut reached, &mut waiting, sources)?;
    'walk: while let Some(node) = waiting.pop() {
        go_on(&mut reached, &mut waiting, ways, crossing, node as usize)?;
    }
    Ok(reached)
}

/// The empty set of so many nodes.
fn none_of(alloc: Global, nodes: usize) -> Result<Vec<bool>, AllocError>
    ensures long { IfOk result (λ set. length set.items ≡ nodes) }
    ensures none { IfOk result (λ set. (n : ℕ) → IsOut set.items n) }
{
    let set = vec![in alloc; false; nodes]?;
    Ok(set)
}

/// Reaches the nodes that the fact crosses to from a node.
fn go_on<C: Crossing>(
    reached: &mut Vec<bool>,
    waiting: &mut Vec<u32>,
    ways: &[Ways],
    crossing: &C,
    node: usize,
) -> Result<(), AllocError>
    requires graph { IsGraph ways.now }
    requires nodes { length ways.now ≡ C.nodes crossing.now }
    requires long { length reached.old.items ≡ length ways.now }
    requires node { node < length ways.now }
    ensures { OnOk result (Reaching (λ n. IsEdge ways.now node n × (C.passes crossing.now node n ≡ true))
        reached.old.items reached.new.items waiting.old.items waiting.new.items) }
{
    let beside = ways[node].as_slice();
    cross_all(reached, waiting, crossing, node, beside)
}

/// Reaches those of these nodes that the fact crosses to from a node.
fn cross_all<C: Crossing>(
    reached: &mut Vec<bool>,
    waiting: &mut Vec<u32>,
    crossing: &C,
    from: usize,
    nodes: &[u32],
) -> Result<(), AllocError>
    requires from { from < C.nodes crossing.now }
    requires nodes { AreBlocks (C.nodes crossing.now) nodes.now }
    requires long { length reached.old.items ≡ C.nodes crossing.now }
    ensures { OnOk result (Reaching (λ n. Contains nodes.now n × (C.passes crossing.now from n ≡ true))
        reached.old.items reached.new.items waiting.old.items waiting.new.items) }
{
    for node in nodes {
        cross(reached, waiting, crossing, from, *node)?;
    }
    Ok(())
}

/// Reaches a node, if the fact crosses to it from another one.
fn cross<C: Crossing>(
    reached: &mut Vec<bool>,
    waiting: &mut Vec<u32>,
    crossing: &C,
    from: usize,
    node: u32,
) -> Result<(), AllocError>
    requires from { from < C.nodes crossing.now }
    requires node { node < C.nodes crossing.now }
    requires long { length reached.old.items ≡ C.nodes crossing.now }
    ensures { OnOk result (Reaching (λ n. (node ≡ n) × (C.passes crossing.now from n ≡ true))
        reached.old.items reached.new.items waiting.old.items waiting.new.items) }
{
    if crossing.crosses(from, node as usize) {
        reach(reached, waiting, node)
    } else {
        Ok(())
    }
}
