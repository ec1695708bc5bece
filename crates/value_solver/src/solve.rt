//! The entries of all blocks, as a fixpoint of sweeps.

ghost use Rattle.std.specs.Prelude.{◌≡◌, ℕ, ◌+◌, ◌-◌, ◌*◌, ◌<◌, ◌≤◌, length, slice_get, slice_index_or, IfOk};
ghost use Rattle.std.specs.Prelude.{List, Some, true, false, []};
ghost use Rattle.mir_func.specs.Graph.{Program};
ghost use Rattle.value_solver.specs.declared.tracked.Tracked.{Tracked};
ghost use Rattle.value_solver.specs.declared.entry.BlockEntry.{BlockEntry};
ghost use Rattle.value_solver.specs.declared.flow.Flow.{Flow};
ghost use Rattle.value_solver.specs.Entry.{IsEntry};
ghost use Rattle.value_solver.specs.Joining.{IsKnown};
ghost use Rattle.value_solver.specs.Hands.{ways_of, AreSoundFlows};
ghost use Rattle.value_solver.specs.Flows.{AreFlows, IsStart};
ghost use Rattle.value_solver.specs.Invariants.{IsState, weight_of};

use crate::entry::{BlockEntries, BlockEntry};
use crate::flow::Flow;
use crate::meet::Pairs;
use crate::turn::turn;
use base_list::List;
use dataflow::graph::{Ways, predecessors};
use dataflow::order::reverse_post_order;
use dataflow::solver::{Analysis, settle};
use std::alloc::{AllocError, Global};

/// The entries of all blocks, and the number of sweeps.
#[derive(Debug, Drop)]
pub struct Solved {
    /// An entry for each block.
    pub entries: BlockEntries,
    /// The number of sweeps, including the last one, in which nothing changed.
    pub sweeps: u64,
}

/// The equations of the entries of a function's blocks.
#[derive(Drop)]
struct Equations<'a> {
    alloc: Global,
    start: &'a BlockEntry,
    flows: &'a [Flow],
    preds: &'a [Ways],
}

/// The entries of all blocks while they are computed.
#[derive(Drop)]
struct Table {
    entries: Vec<BlockEntry>,
    /// Whether each block is in the worklist.
    dirty: Vec<bool>,
    pairs: Pairs,
}

impl<'a> Analysis for Equations<'a> {
    type State = Table;

    ghost blocks = { λ e. length e.flows.now };

    ghost IsValid = { λ e t. IsState (length e.start.now.classes) e.start.now e.flows.now e.preds.now t.entries.items
        t.dirty.items };

    ghost IsClosed = { λ e t b. slice_index_or t.dirty.items b true ≡ false };

    ghost height = { λ e t. 2 * length e.start.now.classes * length e.flows.now - weight_of t.entries.items };

    fn visit(&self, state: &mut Table, block: usize) -> Result<bool, AllocError> {
        let changed = turn(
            self.alloc,
            &mut state.pairs,
            self.start,
            self.flows,
            self.preds,
            &mut state.entries,
            &mut state.dirty,
            block,
        )?;
        Ok(changed)
    }
}

/// The successors of each block.
fn successors_of(alloc: Global, flows: &[Flow]) -> Result<Vec<Ways>, AllocError>
    ensures { IfOk result (λ ways. ways.items ≡ ways_of flows.now) }
{
    let mut ways = Vec::with_capacity(alloc, flows.len())?;
    for flow in flows {
        let copy = flow.ways.copy()?;
        ways.push(copy)?;
    }
    Ok(ways)
}

/// The entries at first: all blocks are unreached.
fn unreached(alloc: Global, blocks: usize) -> Result<Vec<BlockEntry>, AllocError>
    ensures long { IfOk result (λ entries. length entries.items ≡ blocks) }
    ensures each { IfOk result (λ entries. (b : ℕ) (e : BlockEntry) → slice_get entries.items b ≡ Some e →
        e ≡ record { reached = false; classes = []; given = [] }) }
{
    let mut entries = Vec::with_capacity(alloc, blocks)?;
    for _ in 0..blocks {
        entries.push(BlockEntry {
            reached: false,
            classes: List::new(alloc),
            given: List::new(alloc),
        })?;
    }
    Ok(entries)
}

/// The worklist at first: all blocks.
fn all_marked(alloc: Global, blocks: usize) -> Result<Vec<bool>, AllocError>
    ensures long { IfOk result (λ dirty. length dirty.items ≡ blocks) }
    ensures each { IfOk result (λ dirty. (b : ℕ) → slice_index_or dirty.items b true ≡ true) }
{
    let mut dirty = Vec::with_capacity(alloc, blocks)?;
    for _ in 0..blocks {
        dirty.push(true)?;
    }
    Ok(dirty)
}

/// The entries of all blocks of a program with these flows, over as many tracked entities as the start entry has. At
/// each block's start two entities have the same class if and only if on every path to it they have the same token or
/// both have none. The error is out of memory.
pub fn solve(alloc: Global, start: &BlockEntry, flows: &[Flow]) -> Result<Solved, AllocError>
    requires few { length start.now.classes < 4294967295 }
    requires few_blocks { length flows.now < 4294967296 }
    requires some { 0 < length start.now.classes }
    requires known { IsKnown (length start.now.classes) start.now }
    requires sound { AreSoundFlows (length start.now.classes) flows.now }
    ensures exact { IfOk result (λ s. (g : Program) (xs : List Tracked) → length xs ≡ length start.now.classes →
        AreFlows g xs flows.now → IsStart xs start.now →
        (b : ℕ) (e : BlockEntry) → slice_get s.entries b ≡ Some e → IsEntry g xs b e) }
    ensures long { IfOk result (λ s. length s.entries ≡ length flows.now) }
    ensures sweeps { IfOk result (λ s. s.sweeps ≤ 2 * length start.now.classes * length flows.now + 1) }
{
    let successors = successors_of(alloc, flows)?;
    let ways = successors.as_slice();
    let preds = predecessors(alloc, ways)?;
    let mut order = reverse_post_order(alloc, ways)?;
    let entries = unreached(alloc, flows.len())?;
    let dirty = all_marked(alloc, flows.len())?;
    let mut table = Table {
        entries,
        dirty,
        pairs: Pairs::new(alloc),
    };
    let listed = preds.as_slice();
    let equations = Equations {
        alloc,
        start,
        flows,
        preds: listed,
    };
    let sweeps = settle(&equations, &mut table, &mut order)?;
    let Table {
        entries,
        dirty: _,
        pairs: _,
    } = table;
    Ok(Solved {
        entries: List::from(entries),
        sweeps,
    })
}
