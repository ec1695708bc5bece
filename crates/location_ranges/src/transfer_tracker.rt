//! The walk over the items of a block.

ghost use Rattle.std.specs.Prelude.{◌≡◌, ◌<◌, ◌≤◌, ◌+◌, ◌^◌, List, IfOk, OnOk, IsTrue, false, cond, ◌↔◌, length};
ghost use Rattle.mir_func.specs.declared.block.Block.{Block};
ghost use Rattle.mir_func.specs.Exits.{exit_of};
ghost use Rattle.mir_func.specs.Graph.{Here};
ghost use Rattle.mir_func.specs.Resolve.{resolve};
ghost use Rattle.mir_func.specs.Successors.{pos_in};
ghost use Rattle.value_tracker.specs.Things.{AreThings, Indexes};
ghost use Rattle.value_tracker.specs.LocationTracker.{PLACES, Passes, is_mark};
ghost use Rattle.location_ranges.specs.Stands.{AreValuesOf, Stands, Stays, Fits, Falls, IsBlockAt, program};

use crate::values::Values;
use mir_func::exit::Exit;
use mir_func::item::{Item, ItemKind};
use std::alloc::{AllocError, Global};
use value_tracker::class_location::constants;
use value_tracker::index::TrackedIndex;
use value_tracker::location_tracker::LocationTracker;
use value_tracker::pass::{Block as Fixed, is_mark};
use value_tracker::start::{settle, start};

/// The state before an item (LLVM: `TransferTracker`).
#[derive(Drop)]
pub struct TransferTracker {
    /// The index of the block.
    pub block: usize,
    /// The index of the next item.
    pub item: usize,
    /// Whether some path leads there.
    pub reached: bool,
    /// The class of each tracked entity at the start of the block, or 0.
    pub settled: Vec<usize>,
    /// The constant of each class that has one.
    pub constants: Vec<Option<i64>>,
    /// The tracker's state before the item.
    pub held: LocationTracker,
    /// The index behind the last debug value that was passed in the block, or 0.
    pub marked: usize,
}

/// The state before the first item of a block. The error is out of memory.
pub fn enter(
    alloc: Global,
    values: &Values,
    index: &TrackedIndex,
    block: usize,
) -> Result<TransferTracker, AllocError>
    requires block { block < length values.now.entries.now }
    requires things { AreThings values.now.variables.now values.now.things.now }
    requires variables { length values.now.variables.now ≤ length values.now.things.now }
    requires index { Indexes values.now.things.now index.now }
    ensures stands { IfOk result (λ s. (blocks : List Block) → AreValuesOf blocks values.now →
        Stands blocks values.now index.now s) }
    ensures block { IfOk result (λ s. s.block ≡ block) }
    ensures item { IfOk result (λ s. s.item ≡ 0) }
    ensures fits { IfOk result (λ s. Fits s values.now) }
{
    let entry = &values.entries[block];
    let settled = settle(alloc, entry, values.things.len())?;
    let held = start(
        alloc,
        values.things,
        values.variables,
        index,
        settled.as_slice(),
    )?;
    let constants = constants(alloc, values.things, settled.as_slice(), held.next)?;
    Ok(TransferTracker {
        block,
        item: 0,
        reached: entry.reached,
        settled,
        constants,
        held,
        marked: 0,
    })
}

/// Whether control may continue to the item below.
fn falls(kind: &ItemKind) -> bool
    ensures { IsTrue result ↔ Falls (exit_of kind.now) }
{
    match kind.exit() {
        Exit::Onward => true,
        Exit::Perhaps(_) => true,
        Exit::Always(_) => false,
        Exit::Final => false,
    }
}

impl TransferTracker {
    /// Steps over an item.
    fn pass(&mut self, values: &Values, index: &TrackedIndex, item: &Item) -> Result<(), AllocError>
        requires few { self.old.item < 2 ^ 63 }
        requires fits { Fits self.old values.now }
        ensures stands { OnOk result ((blocks : List Block) → AreValuesOf blocks values.now →
            (program blocks values.now.subs.now).fetch (pos_in self.old.block self.old.item) ≡ Here item.now
            → Stands blocks values.now index.now self.old → Stands blocks values.now index.now self.new) }
        ensures block { OnOk result (self.new.block ≡ self.old.block) }
        ensures item { OnOk result (self.new.item ≡ self.old.item + 1) }
        ensures fits { OnOk result (Fits self.new values.now) }
        ensures stays { OnOk result (Stays self.old self.new) }
    {
        if !self.reached {
            self.item += 1;
            return Ok(());
        }
        if !falls(&item.kind) {
            self.reached = false;
            self.item += 1;
            return Ok(());
        }
        pass_held(
            &mut self.held,
            values,
            index,
            self.settled.as_slice(),
            &item.kind,
        )?;
        self.item += 1;
        self.marked = marked_past(&item.kind, self.marked, self.item);
        Ok(())
    }

    /// Steps over the items of its block up to an index.
    fn advance(
        &mut self,
        values: &Values,
        index: &TrackedIndex,
        items: &[Item],
        to: usize,
    ) -> Result<(), AllocError>
        requires within { to ≤ length items.now }
        requires ahead { self.old.item ≤ to }
        requires fits { Fits self.old values.now }
        ensures stands { OnOk result ((blocks : List Block) → AreValuesOf blocks values.now →
            IsBlockAt blocks self.old.block items.now
            → Stands blocks values.now index.now self.old → Stands blocks values.now index.now self.new) }
        ensures block { OnOk result (self.new.block ≡ self.old.block) }
        ensures item { OnOk result (self.new.item ≡ to) }
        ensures fits { OnOk result (Fits self.new values.now) }
        ensures stays { OnOk result (Stays self.old self.new) }
    {
        for k in self.item..to {
            self.pass(values, index, &items[k])?;
        }
        Ok(())
    }
}

/// The index behind the last debug value past an item that ends at an index.
fn marked_past(kind: &ItemKind, marked: usize, end: usize) -> usize
    ensures { result ≡ cond (is_mark kind.now) end marked }
{
    if is_mark(kind) { end } else { marked }
}

/// Steps over an item below which control may continue.
fn pass_held(
    held: &mut LocationTracker,
    values: &Values,
    index: &TrackedIndex,
    settled: &[usize],
    kind: &ItemKind,
) -> Result<(), AllocError>
    requires places { length held.old.places.items ≡ PLACES }
    requires parts { length held.old.parts.items ≡ length values.now.variables.now }
    ensures passes { OnOk result (Passes values.now.variables.now index.now settled.now
        (resolve values.now.subs.now) held.old held.new kind.now) }
    ensures places { OnOk result (length held.new.places.items ≡ PLACES) }
    ensures parts { OnOk result (length held.new.parts.items ≡ length values.now.variables.now) }
    ensures stay { OnOk result (is_mark kind.now ≡ false → held.new.parts ≡ held.old.parts) }
{
    let fixed = Fixed {
        index,
        settled,
        variables: values.variables,
        subs: values.subs,
    };
    held.pass(&fixed, kind)
}

/// Whether an item is in the state's block, at its item or below.
pub fn is_onward(stand: &TransferTracker, block: usize, item: usize) -> bool
    ensures { IsTrue result ↔ ((stand.now.block ≡ block) × (stand.now.item ≤ item)) }
{
    if stand.block != block {
        return false;
    }
    stand.item <= item
}

/// The state before an item: it advances from a state above it in the same block, and otherwise from the block's start.
/// The error is out of memory.
pub fn move_to(
    alloc: Global,
    values: &Values,
    index: &TrackedIndex,
    stand: TransferTracker,
    block: usize,
    items: &[Item],
    item: usize,
) -> Result<TransferTracker, AllocError>
    requires block { block < length values.now.entries.now }
    requires things { AreThings values.now.variables.now values.now.things.now }
    requires variables { length values.now.variables.now ≤ length values.now.things.now }
    requires index { Indexes values.now.things.now index.now }
    requires within { item ≤ length items.now }
    requires fits { Fits stand values.now }
    ensures stands { IfOk result (λ s. (blocks : List Block) → AreValuesOf blocks values.now →
        IsBlockAt blocks block items.now
        → Stands blocks values.now index.now stand → Stands blocks values.now index.now s) }
    ensures block { IfOk result (λ s. s.block ≡ block) }
    ensures item { IfOk result (λ s. s.item ≡ item) }
    ensures fits { IfOk result (λ s. Fits s values.now) }
    ensures stays { IfOk result (λ s. stand.block ≡ block → stand.item ≤ item → Stays stand s) }
{
    let mut stand = stand_in(alloc, values, index, stand, block, item)?;
    stand.advance(values, index, items, item)?;
    Ok(stand)
}

/// A state in the block at the item or above it.
fn stand_in(
    alloc: Global,
    values: &Values,
    index: &TrackedIndex,
    stand: TransferTracker,
    block: usize,
    item: usize,
) -> Result<TransferTracker, AllocError>
    requires block { block < length values.now.entries.now }
    requires things { AreThings values.now.variables.now values.now.things.now }
    requires variables { length values.now.variables.now ≤ length values.now.things.now }
    requires index { Indexes values.now.things.now index.now }
    requires fits { Fits stand values.now }
    ensures stands { IfOk result (λ s. (blocks : List Block) → AreValuesOf blocks values.now
        → Stands blocks values.now index.now stand → Stands blocks values.now index.now s) }
    ensures block { IfOk result (λ s. s.block ≡ block) }
    ensures item { IfOk result (λ s. s.item ≤ item) }
    ensures fits { IfOk result (λ s. Fits s values.now) }
    ensures same { IfOk result (λ s. stand.block ≡ block → stand.item ≤ item → s ≡ stand) }
{
    if is_onward(&stand, block, item) {
        return Ok(stand);
    }
    Ok(enter(alloc, values, index, block)?)
}
