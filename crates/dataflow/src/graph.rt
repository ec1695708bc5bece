//! Control-flow graphs, and the predecessors of their blocks.

ghost use Rattle.std.specs.Prelude.{◌≡◌, ◌↔◌, ◌⊎◌, ℕ, ◌<◌, length, IfOk, OnOk, All, Contains};
ghost use Rattle.dataflow.specs.Graph.{ways_at, IsGraph, ArePredecessors};

use base_list::List;
use std::alloc::{AllocError, Global};

/// The successors or the predecessors of a block. Blocks are named by their indices.
pub type Ways = List<u32>;

/// Adds a block to the predecessors of its successors.
fn note(preds: &mut Vec<Ways>, block: u32, ways: &[u32]) -> Result<(), AllocError>
    requires { All (λ c. c < length preds.old.items) ways.now }
    ensures long { OnOk result (length preds.new.items ≡ length preds.old.items) }
    ensures noted { OnOk result ((c p : ℕ) → Contains (ways_at preds.new.items c) p
        ↔ (Contains (ways_at preds.old.items c) p ⊎ ((p ≡ block) × Contains ways.now c))) }
{
    for c in ways {
        let known = &mut preds[*c as usize];
        known.push(block)?;
    }
    Ok(())
}

/// Empty lists for this many blocks.
fn none(alloc: Global, blocks: usize) -> Result<Vec<Ways>, AllocError>
    ensures long { IfOk result (λ p. length p.items ≡ blocks) }
    ensures none { IfOk result (λ p. (c q : ℕ) → Contains (ways_at p.items c) q → ⊥) }
{
    let mut preds = Vec::with_capacity(alloc, blocks)?;
    for _ in 0..blocks {
        preds.push(List::new(alloc))?;
    }
    Ok(preds)
}

/// The predecessors of each block, by the successors. The error is out of memory.
pub fn predecessors(alloc: Global, successors: &[Ways]) -> Result<Vec<Ways>, AllocError>
    requires few { length successors.now < 4294967296 }
    requires graph { IsGraph successors.now }
    ensures { IfOk result (λ preds. ArePredecessors successors.now preds.items) }
{
    let mut preds = none(alloc, successors.len())?;
    for block in 0..successors.len() {
        note(&mut preds, block as u32, successors[block].as_slice())?;
    }
    Ok(preds)
}
