//! The fixpoint solver for the live-in sets.

ghost use Rattle.std.specs.Prelude.{◌≡◌, ℕ, ◌+◌, ◌<◌, ◌≤◌, length, drop, All, slice_get, Some, OnOk};
ghost use Rattle.rv64_instr.specs.declared.place.Place.{Place};
ghost use Rattle.mir_func.specs.declared.item.Item.{Item};
ghost use Rattle.mir_func.specs.Exits.{exit_of};
ghost use Rattle.mir_func.specs.Sound.{SlotsIn, ids_of};
ghost use Rattle.dataflow.specs.Fixpoint.{Visited};
ghost use Rattle.pass_liveness.specs.Sets.{has};
ghost use Rattle.pass_liveness.specs.Walk.{live_across, live_from};
ghost use Rattle.pass_liveness.specs.Liveness.{has_at_start, items_at};
ghost use Rattle.pass_liveness.specs.Solving.{IsKnownBlock, IsState, IsClosed, gap_of};

use crate::names::SlotAndBlockNumbers;
use crate::set::PlaceSet;
use base_ids::function_ids::BlockId;
use dataflow::graph::predecessors;
use dataflow::order::post_order;
use dataflow::solver::{Analysis, Statistics, solve};
use mir_func::block::Block;
use mir_func::func::Func;
use mir_func::item::Item;
use mir_func::successors::id_at;
use std::alloc::{AllocError, Global};

/// The liveness equations of a function's blocks.
#[derive(Drop)]
struct Equations<'a> {
    names: &'a SlotAndBlockNumbers,
    blocks: &'a [Block],
}

impl<'a> Analysis for Equations<'a> {
    type State = Vec<PlaceSet>;

    ghost blocks = { λ e. length e.blocks.now };

    ghost IsValid = { λ e starts. IsState e.names.now.slots e.names.now.blocks e.blocks.now starts.items };

    ghost IsClosed = { λ e starts b. IsClosed e.names.now.slots e.names.now.blocks e.blocks.now starts.items b };

    ghost height = { λ e starts. gap_of starts.items };

    fn visit(&self, state: &mut Vec<PlaceSet>, block: usize) -> Result<bool, AllocError> {
        Ok(self.names.visit(self.blocks, state, block))
    }
}

impl SlotAndBlockNumbers {
    /// Adds to a block's set what is live at its start according to the sets of its successors, and returns whether it
    /// grew.
    fn visit(&self, blocks: &[Block], starts: &mut Vec<PlaceSet>, block: usize) -> bool
        requires known { IsKnownBlock self.now.slots blocks.now block }
        requires state { IsState self.now.slots self.now.blocks blocks.now starts.old.items }
        ensures { Visited (IsState self.now.slots self.now.blocks blocks.now)
            (IsClosed self.now.slots self.now.blocks blocks.now) gap_of starts.old.items starts.new.items block result }
    {
        let next = id_at(blocks, block + 1);
        let live = self.live_from(starts.as_slice(), blocks[block].items.as_slice(), next);
        let start = &mut starts[block];
        start.unite(&live)
    }

    /// Visits all blocks, successors first, and again those of which a successor's set grew, until no set grows. The
    /// error is out of memory.
    pub fn settle(
        &self,
        alloc: Global,
        f: &Func,
        starts: &mut Vec<PlaceSet>,
    ) -> Result<Statistics, AllocError>
        requires names { self.now.blocks ≡ ids_of f.now.blocks }
        requires state { IsState self.now.slots self.now.blocks f.now.blocks starts.old.items }
        ensures state { OnOk result (IsState self.now.slots self.now.blocks f.now.blocks starts.new.items) }
        ensures closed { OnOk result ((b : ℕ) → b < length f.now.blocks
            → IsClosed self.now.slots self.now.blocks f.now.blocks starts.new.items b) }
    {
        let ways = self.successors(alloc, f)?;
        let successors = ways.as_slice();
        let preds = predecessors(alloc, successors)?;
        let mut order = post_order(alloc, successors)?;
        let blocks = f.blocks.as_slice();
        let dependents = preds.as_slice();
        let equations = Equations {
            names: self,
            blocks,
        };
        let took = solve(alloc, &equations, starts, &mut order, dependents)?;
        Ok(took)
    }

    /// What is live before the item of this index in the block of this index, or at the block's end.
    pub fn live_before_item(
        &self,
        blocks: &[Block],
        starts: &[PlaceSet],
        block: usize,
        item: usize,
    ) -> PlaceSet
        requires known { IsKnownBlock self.now.slots blocks.now block }
        requires item { item ≤ length (items_at blocks.now block) }
        ensures { (x : Place) → has self.now.slots result x
            ≡ live_from (has_at_start self.now.slots self.now.blocks starts.now)
            (drop item (items_at blocks.now block)) (slice_get (ids_of blocks.now) (block + 1)) x }
    {
        let next = id_at(blocks, block + 1);
        self.live_in(starts, blocks[block].items.as_slice(), item, next)
    }

    /// What is live after the item of this index in the block of this index.
    pub fn live_past_item(
        &self,
        blocks: &[Block],
        starts: &[PlaceSet],
        block: usize,
        item: usize,
    ) -> PlaceSet
        requires known { IsKnownBlock self.now.slots blocks.now block }
        requires item { item < length (items_at blocks.now block) }
        ensures { (i : Item) (x : Place) → slice_get (items_at blocks.now block) item ≡ Some i →
            has self.now.slots result x
            ≡ live_across (has_at_start self.now.slots self.now.blocks starts.now) (exit_of i.kind)
            (live_from (has_at_start self.now.slots self.now.blocks starts.now)
            (drop (item + 1) (items_at blocks.now block)) (slice_get (ids_of blocks.now) (block + 1)) x) x }
    {
        let next = id_at(blocks, block + 1);
        self.live_past_in(starts, blocks[block].items.as_slice(), item, next)
    }

    fn live_in(
        &self,
        starts: &[PlaceSet],
        items: &[Item],
        item: usize,
        next: Option<BlockId>,
    ) -> PlaceSet
        requires slots { All (λ i. SlotsIn self.now.slots i.kind) items.now }
        requires item { item ≤ length items.now }
        ensures { (x : Place) → has self.now.slots result x
            ≡ live_from (has_at_start self.now.slots self.now.blocks starts.now) (drop item items.now) next x }
    {
        self.live_from(starts, &items[item..], next)
    }

    fn live_past_in(
        &self,
        starts: &[PlaceSet],
        items: &[Item],
        item: usize,
        next: Option<BlockId>,
    ) -> PlaceSet
        requires slots { All (λ i. SlotsIn self.now.slots i.kind) items.now }
        requires item { item < length items.now }
        ensures { (i : Item) (x : Place) → slice_get items.now item ≡ Some i → has self.now.slots result x
            ≡ live_across (has_at_start self.now.slots self.now.blocks starts.now) (exit_of i.kind)
            (live_from (has_at_start self.now.slots self.now.blocks starts.now) (drop (item + 1) items.now) next x) x }
    {
        let exit = items[item].kind.exit();
        let mut set = self.live_in(starts, items, item + 1, next);
        self.step_across(&mut set, starts, exit);
        set
    }
}
