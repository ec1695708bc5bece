//! The liveness analysis of a function.

ghost use Rattle.std.specs.Prelude.{◌≡◌, ◌<◌, ◌≤◌, ℕ, List, [], false, length, slice_index, slice_index_or, IfOk};
ghost use Rattle.rv64_instr.specs.declared.place.Place.{Place};
ghost use Rattle.mir_func.specs.Function.{Function};
ghost use Rattle.mir_func.specs.Graph.{block_start};
ghost use Rattle.mir_func.specs.Sound.{ids_of, SlotsIn};
ghost use Rattle.mir_func.specs.Successors.{pos_in};
ghost use Rattle.sem_mir.specs.Live.{Live as IsLive};
ghost use Rattle.pass_liveness.specs.Sets.{has};
ghost use Rattle.pass_liveness.specs.Walk.{live_before};
ghost use Rattle.pass_liveness.specs.Liveness.{AreLiveSets, DecidesIn, LivePast, LiveOut, items_at};

use crate::index::Index;
use crate::names::SlotAndBlockNumbers;
use crate::set::PlaceSet;
use base_ids::function_ids::SlotId;
use dataflow::solver::Statistics;
use mir_func::block::Block;
use mir_func::func::Func;
use mir_func::item::ItemKind;
use mir_func::successors::Successors;
use rv64_instr::place::Place;
use std::alloc::{AllocError, Global};
use std::marker::Model;

/// What is live at the starts of a function's blocks (LLVM: live-in lists, and live stack slots).
#[derive(Drop)]
pub struct Live {
    names: SlotAndBlockNumbers,
    starts: Vec<PlaceSet>,
}

impl Model for Live {
    ghost use Rattle.pass_liveness.specs.Liveness.{LiveSets};

    ghost Value = { LiveSets };

    ghost view = { λ l. record { slots = l.names.slots; blocks = l.names.blocks; starts = l.starts.items } };
}

impl Live {
    /// Computes the live-in sets of a function. The error is out of memory.
    pub fn solve(alloc: Global, f: &Func) -> Result<Live, AllocError>
        ensures { IfOk result (AreLiveSets f.now) }
    {
        let (live, _) = Live::solve_counting(alloc, f)?;
        Ok(live)
    }

    /// Computes the live-in sets of a function, and tells what it took. The error is out of memory.
    pub fn solve_counting(alloc: Global, f: &Func) -> Result<(Live, Statistics), AllocError>
        ensures { IfOk result (λ solved. AreLiveSets f.now solved.0) }
    {
        let names = names_of(alloc, f)?;
        let mut starts = empty_sets(alloc, f.blocks.len())?;
        let took = names.settle(alloc, f, &mut starts)?;
        Ok((Live { names, starts }, took))
    }

    /// Whether a place is in a set. It takes no memory.
    pub fn contains(&self, set: &PlaceSet, p: Place) -> bool
        ensures { result ≡ has self.now.slots set.now p }
    {
        self.names.has(set, p)
    }

    /// The places that are live at the start of the block of this index. It takes no memory.
    pub fn at_start(&self, block: usize) -> PlaceSet
        requires { block < length self.now.starts }
        ensures { (f : Function) (x : Place) → AreLiveSets f self.now →
            DecidesIn f (λ g. IsLive g x (block_start (slice_index (ids_of f.blocks) block)))
            (has self.now.slots result x) }
    {
        self.starts[block].copy()
    }

    /// The places that are live out of the block of this index: live at the start of some successor. It takes no
    /// memory.
    pub fn past_block(&self, f: &Func, block: usize) -> PlaceSet
        requires sets { AreLiveSets f.now self.now }
        requires inside { block < length f.now.blocks }
        ensures { (x : Place) → DecidesIn f.now (λ g. LiveOut g x (slice_index (ids_of f.now.blocks) block))
            (has self.now.slots result x) }
    {
        let mut set = PlaceSet::new();
        match f.successors(block) {
            Successors::Nowhere => {}
            Successors::One(n) => self.names.unite_start(&mut set, self.starts.as_slice(), n),
            Successors::Two(m, n) => {
                self.names.unite_start(&mut set, self.starts.as_slice(), m);
                self.names.unite_start(&mut set, self.starts.as_slice(), n);
            }
        }
        set
    }

    /// The transfer step: from what is live after an item to what is live before it. It takes no memory.
    pub fn step_up(&self, set: &mut PlaceSet, kind: &ItemKind)
        ensures { SlotsIn self.now.slots kind.now → (x : Place) →
            has self.now.slots set.new x ≡ live_before kind.now (has self.now.slots set.old x) x }
    {
        self.names.step_up(set, kind);
    }

    /// Whether a place is live before the item of this index in the block of this index, or at the block's end. It
    /// takes no memory.
    pub fn live_at(&self, f: &Func, block: usize, item: usize, p: Place) -> bool
        requires sets { AreLiveSets f.now self.now }
        requires inside { block < length f.now.blocks }
        requires item { item ≤ length (items_at f.now.blocks block) }
        ensures { DecidesIn f.now (λ g. IsLive g p (pos_in (slice_index (ids_of f.now.blocks) block) item)) result }
    {
        let set = self
            .names
            .live_before_item(f.blocks.as_slice(), self.starts.as_slice(), block, item);
        self.names.has(&set, p)
    }

    /// Whether a place is live after the item of this index in the block of this index: live at some successor of its
    /// position. It takes no memory.
    pub fn live_after(&self, f: &Func, block: usize, item: usize, p: Place) -> bool
        requires sets { AreLiveSets f.now self.now }
        requires inside { block < length f.now.blocks }
        requires item { item < length (items_at f.now.blocks block) }
        ensures { DecidesIn f.now (λ g. LivePast g p (pos_in (slice_index (ids_of f.now.blocks) block) item)) result }
    {
        let set = self
            .names
            .live_past_item(f.blocks.as_slice(), self.starts.as_slice(), block, item);
        self.names.has(&set, p)
    }
}

/// The slots and the block numbers of a function, with their indices.
pub fn names_of(alloc: Global, f: &Func) -> Result<SlotAndBlockNumbers, AllocError>
    ensures slots { IfOk result (λ n. n.slots ≡ f.now.slots) }
    ensures blocks { IfOk result (λ n. n.blocks ≡ ids_of f.now.blocks) }
{
    let slots = slot_numbers(alloc, f.slots.as_slice())?;
    let blocks = block_numbers(alloc, f.blocks.as_slice())?;
    Ok(SlotAndBlockNumbers {
        slots: Index::new(alloc, slots)?,
        blocks: Index::new(alloc, blocks)?,
    })
}

fn slot_numbers(alloc: Global, slots: &[SlotId]) -> Result<Vec<u32>, AllocError>
    ensures { IfOk result (λ v. v.items ≡ slots.now) }
{
    let mut numbers = Vec::with_capacity(alloc, slots.len())?;
    for slot in slots {
        numbers.push(slot.number())?;
    }
    Ok(numbers)
}

fn block_numbers(alloc: Global, blocks: &[Block]) -> Result<Vec<u32>, AllocError>
    ensures { IfOk result (λ v. v.items ≡ ids_of blocks.now) }
{
    let mut numbers = Vec::with_capacity(alloc, blocks.len())?;
    for block in blocks {
        numbers.push(block.id.number())?;
    }
    Ok(numbers)
}

/// As many empty sets as there are blocks.
pub fn empty_sets(alloc: Global, blocks: usize) -> Result<Vec<PlaceSet>, AllocError>
    ensures long { IfOk result (λ sets. length sets.items ≡ blocks) }
    ensures none { IfOk result (λ sets. (slots : List ℕ) (b : ℕ) (x : Place) →
        has slots (slice_index_or sets.items b []) x ≡ false) }
{
    let mut sets = Vec::with_capacity(alloc, blocks)?;
    for _ in 0..blocks {
        sets.push(PlaceSet::new())?;
    }
    Ok(sets)
}
