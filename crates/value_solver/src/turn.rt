//! Visits with a worklist: a marked block is visited, and if its entry changes its successors are marked.

ghost use Rattle.std.specs.Prelude.{◌≡◌, ℕ, ◌<◌, length, slice_index_or, IfOk, All};
ghost use Rattle.std.specs.Prelude.{true, false, Contains};
ghost use Rattle.value_solver.specs.Invariants.{IsProblem, IsTable, Turned};

use crate::entry::BlockEntry;
use crate::flow::Flow;
use crate::meet::Pairs;
use crate::visit::visit;
use dataflow::graph::Ways;
use std::alloc::{AllocError, Global};

/// Marks blocks: they enter the worklist.
fn mark(dirty: &mut Vec<bool>, ways: &[u32])
    requires { All (λ c. c < length dirty.old.items) ways.now }
    ensures long { length dirty.new.items ≡ length dirty.old.items }
    ensures marked { (c : ℕ) → slice_index_or dirty.new.items c true ≡ false
        → (slice_index_or dirty.old.items c true ≡ false) × (Contains ways.now c → ⊥) }
{
    for c in ways {
        dirty[*c as usize] = true;
    }
}

/// Visits a block if it is marked. Whether its entry changed. The error is out of memory.
pub fn turn(
    alloc: Global,
    pairs: &mut Pairs,
    start: &BlockEntry,
    flows: &[Flow],
    preds: &[Ways],
    entries: &mut Vec<BlockEntry>,
    dirty: &mut Vec<bool>,
    block: usize,
) -> Result<bool, AllocError>
    requires problem { IsProblem start.now flows.now preds.now }
    requires table { IsTable (length start.now.classes) start.now flows.now preds.now entries.old.items
        dirty.old.items }
    requires block { block < length flows.now }
    ensures { IfOk result (λ changed.
        Turned (length start.now.classes) start.now flows.now preds.now entries.old.items entries.new.items
        dirty.old.items dirty.new.items block changed) }
{
    if !dirty[block] {
        return Ok(false);
    }
    let changed = visit(alloc, pairs, start, flows, preds, entries, block)?;
    dirty[block] = false;
    if !changed {
        return Ok(false);
    }
    mark(dirty, flows[block].ways.as_slice());
    Ok(true)
}
