//! A visit of a block: its entry becomes the join of what its predecessors propagate now.

ghost use Rattle.std.specs.Prelude.{◌≡◌, ◌↔◌, ◌<◌, ℕ, List, ◌++◌, Some, length, IfOk};
ghost use Rattle.std.specs.Prelude.{All, IsTrue, true, false, []};
ghost use Rattle.dataflow.specs.Graph.{ArePredecessors};
ghost use Rattle.value_solver.specs.Joining.{IsKnown, AreWithin, IsJoin, IsJoined, Hand};
ghost use Rattle.value_solver.specs.Hands.{IsShaped, AreSoundFlows, handed, first_hand, hand_by};
ghost use Rattle.value_solver.specs.Hands.{ways_of, Visited};

use crate::entry::BlockEntry;
use crate::flow::Flow;
use crate::hand::{Exit, hand_on};
use crate::join::{alone, empty_join, join};
use crate::meet::Pairs;
use base_list::List;
use dataflow::graph::Ways;
use std::alloc::{AllocError, Global};

/// What the start entry propagates into a block.
fn first_join(
    alloc: Global,
    pairs: &mut Pairs,
    start: &BlockEntry,
    block: usize,
) -> Result<BlockEntry, AllocError>
    requires few { length start.now.classes < 4294967295 }
    requires known { IsKnown (length start.now.classes) start.now }
    ensures { IfOk result (λ e. IsJoined (length start.now.classes) (first_hand start.now block) e) }
{
    match block {
        0 => {
            let exit = hand_on(alloc, start, &[])?;
            alone(alloc, pairs, exit)
        }
        _ => Ok(nothing_joined(alloc)),
    }
}

/// The entry that nothing was propagated into yet.
fn nothing_joined(alloc: Global) -> BlockEntry
    ensures { (n : ℕ) → IsJoined n [] result }
{
    BlockEntry {
        reached: false,
        classes: List::new(alloc),
        given: List::new(alloc),
    }
}

/// The join with what one more predecessor propagates: nothing while it is unreached.
fn join_more(
    alloc: Global,
    pairs: &mut Pairs,
    things: usize,
    joined: BlockEntry,
    entry: &BlockEntry,
    flow: &Flow,
) -> Result<BlockEntry, AllocError>
    requires few { things < 4294967295 }
    requires long { joined.reached ≡ true → length joined.classes ≡ things }
    requires shaped { IsShaped things entry.now }
    requires within { AreWithin things flow.now.changes }
    ensures { IfOk result (λ e. (hands : List Hand) → IsJoined things hands joined
        → IsJoined things (hands ++ hand_by (Some entry.now) (Some flow.now)) e) }
{
    if !entry.reached {
        return Ok(joined);
    }
    let exit = hand_on(alloc, entry, flow.changes.as_slice())?;
    if !joined.reached {
        return alone(alloc, pairs, exit);
    }
    join(alloc, pairs, joined, &exit)
}

/// The join of all that is propagated into a block.
fn joined(
    alloc: Global,
    pairs: &mut Pairs,
    start: &BlockEntry,
    flows: &[Flow],
    entries: &[BlockEntry],
    block: usize,
    predecessors: &[u32],
) -> Result<BlockEntry, AllocError>
    requires few { length start.now.classes < 4294967295 }
    requires known { IsKnown (length start.now.classes) start.now }
    requires sound { AreSoundFlows (length start.now.classes) flows.now }
    requires shaped { All (IsShaped (length start.now.classes)) entries.now }
    requires long { length entries.now ≡ length flows.now }
    requires within { All (λ p. p < length flows.now) predecessors.now }
    ensures { IfOk result (λ e.
        IsJoin (length start.now.classes) (handed start.now flows.now entries.now block predecessors.now) e) }
{
    let things = start.classes.len();
    let mut joined = first_join(alloc, pairs, start, block)?;
    for p in predecessors {
        joined = join_more(
            alloc,
            pairs,
            things,
            joined,
            &entries[*p as usize],
            &flows[*p as usize],
        )?;
    }
    if !joined.reached {
        return empty_join(alloc, things);
    }
    Ok(joined)
}

/// Whether two entries are equal.
fn are_equal(a: &BlockEntry, b: &BlockEntry) -> bool
    ensures { IsTrue result ↔ (a.now ≡ b.now) }
{
    if a.reached != b.reached {
        return false;
    }
    if a.classes.as_slice() != b.classes.as_slice() {
        return false;
    }
    a.given.as_slice() == b.given.as_slice()
}

/// Visits a block. Whether its entry changed. The error is out of memory.
pub fn visit(
    alloc: Global,
    pairs: &mut Pairs,
    start: &BlockEntry,
    flows: &[Flow],
    preds: &[Ways],
    entries: &mut Vec<BlockEntry>,
    block: usize,
) -> Result<bool, AllocError>
    requires few { length start.now.classes < 4294967295 }
    requires known { IsKnown (length start.now.classes) start.now }
    requires sound { AreSoundFlows (length start.now.classes) flows.now }
    requires preds { ArePredecessors (ways_of flows.now) preds.now }
    requires shaped { All (IsShaped (length start.now.classes)) entries.old.items }
    requires long { length entries.old.items ≡ length flows.now }
    requires block { block < length flows.now }
    ensures { IfOk result (λ changed.
        Visited start.now flows.now preds.now entries.old.items entries.new.items block changed) }
{
    let entry = joined(
        alloc,
        pairs,
        start,
        flows,
        entries.as_slice(),
        block,
        preds[block].as_slice(),
    )?;
    if !entry.reached {
        return Ok(false);
    }
    if are_equal(&entry, &entries[block]) {
        return Ok(false);
    }
    entries[block] = entry;
    Ok(true)
}
