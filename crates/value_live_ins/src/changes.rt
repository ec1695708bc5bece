//! A block's effect on the tokens of tracked entities.

ghost use Rattle.std.specs.Prelude.{◌≡◌, ◌<◌, Some, All, IfOk, OnOk, [], length, map, slice_get, slice_index};
ghost use Rattle.std.specs.HashMap.{get};
ghost use Rattle.mir_func.specs.Resolve.{resolve};
ghost use Rattle.mir_func.specs.Sound.{HasForm};
ghost use Rattle.mir_substitution.specs.Index.{is_key};
ghost use Rattle.value_proof.specs.Classes.{Classes};
ghost use Rattle.value_live_ins.specs.Gathering.{KnowsItems};
ghost use Rattle.value_solver.specs.Entry.{thing as name_of};
ghost use Rattle.value_tracker.specs.Things.{AreThings, Indexes};
ghost use Rattle.value_tracker.specs.LocationTracker.{PLACES, Holds, Passes, given_or};
ghost use Rattle.value_solver.specs.Joining.{AreWithin};
ghost use Rattle.value_live_ins.specs.steps.Flowing.{Tells};
ghost use Rattle.value_live_ins.specs.Walking.{IsTracking, AreTracked, decoded, new_of, Walked, AreChanges, AreOwn};

use base_list::List;
use mir_func::debug_substitution::OperandPair;
use mir_func::item::{Item, ItemKind};
use mir_substitution::substitutions::Substitutions;
use rv64_instr::reg::physical;
use std::alloc::{AllocError, Global};
use value_solver::flow::{Change, Changes, Source};
use value_solver::tracked::Tracked;
use value_tracker::index::{TrackedIndex, key};
use value_tracker::location_tracker::{LocationTracker, slot_place};
use value_tracker::part_list::PartList;
use value_tracker::pass::Block as Fixed;
use value_tracker::start::start;

/// The registers that an item may define new tokens for.
const REGISTERS: usize = 32;
/// The limit on a block's items, exclusive: memory runs out before it.
const MOST_ITEMS: usize = 1 << 32;

/// What is constant over the blocks of a function.
#[derive(Drop)]
pub struct Tracking<'a> {
    /// The tracked parts of variables.
    pub variables: &'a PartList,
    /// All tracked entities.
    pub things: &'a [Tracked],
    /// The positions of constants and pairs in their list.
    pub index: &'a TrackedIndex,
    /// The class of each entity at the start of a block: each has its own.
    pub settled: &'a [usize],
    /// The debug value substitutions, which pairs resolve by.
    pub subs: &'a Substitutions,
}

/// A class of its own for each of this many entities: its index plus 1.
pub fn own_classes(alloc: Global, count: usize) -> Result<Vec<usize>, AllocError>
    requires { count < 4294967296 }
    ensures { IfOk result (λ v. AreOwn count v.items) }
{
    let mut classes = Vec::with_capacity(alloc, count)?;
    for i in 0..count {
        classes.push(i + 1)?;
    }
    Ok(classes)
}

/// The changes of a block with these items. The error is out of memory.
pub fn changes_of(alloc: Global, tracking: &Tracking, items: &[Item]) -> Result<Changes, AllocError>
    requires tracking { IsTracking tracking.now }
    requires knows { KnowsItems (map name_of tracking.now.things.now) (resolve tracking.now.subs.now) items.now }
    ensures tells { IfOk result (λ changes.
        Tells (resolve tracking.now.subs.now) tracking.now.things.now items.now changes) }
    ensures within { IfOk result (λ changes. AreWithin (length tracking.now.things.now) changes) }
    ensures forms { IfOk result (λ changes. All (λ i. HasForm i.kind) items.now) }
{
    let mut held = start(
        alloc,
        tracking.things,
        tracking.variables,
        tracking.index,
        tracking.settled,
    )?;
    pass_items(&mut held, tracking, items)?;
    changes(alloc, &held, tracking)
}

/// Steps over the items of a block.
fn pass_items(
    held: &mut LocationTracker,
    tracking: &Tracking,
    items: &[Item],
) -> Result<(), AllocError>
    requires few { length tracking.now.things.now < 4294967295 }
    requires things { AreTracked tracking.now.things.now }
    requires places { length held.old.places.items ≡ PLACES }
    requires parts { length held.old.parts.items ≡ length tracking.now.variables.now }
    requires knows { KnowsItems (map name_of tracking.now.things.now) (resolve tracking.now.subs.now) items.now }
    requires walked { Walked tracking.now [] held.old }
    ensures walked { OnOk result (Walked tracking.now items.now held.new) }
    ensures parts { OnOk result (length held.new.parts.items ≡ length tracking.now.variables.now) }
    ensures places { OnOk result (length held.new.places.items ≡ PLACES) }
    ensures forms { OnOk result (All (λ i. HasForm i.kind) items.now) }
{
    for k in 0..items.len() {
        if k >= MOST_ITEMS {
            return Err(AllocError);
        }
        held.next = tracking.things.len() + 1 + REGISTERS * k;
        pass(held, tracking, &items[k].kind)?;
    }
    Ok(())
}

/// Steps over an item.
fn pass(held: &mut LocationTracker, tracking: &Tracking, kind: &ItemKind) -> Result<(), AllocError>
    requires places { length held.old.places.items ≡ PLACES }
    requires parts { length held.old.parts.items ≡ length tracking.now.variables.now }
    ensures passes { OnOk result (Passes tracking.now.variables.now tracking.now.index.now tracking.now.settled.now
        (resolve tracking.now.subs.now) held.old held.new kind.now) }
    ensures places { OnOk result (length held.new.places.items ≡ PLACES) }
    ensures parts { OnOk result (length held.new.parts.items ≡ length tracking.now.variables.now) }
    ensures form { HasForm kind.now }
{
    read_form(kind);
    let fixed = Fixed {
        index: tracking.index,
        settled: tracking.settled,
        variables: tracking.variables,
        subs: tracking.subs,
    };
    held.pass(&fixed, kind)
}

/// Each instruction has the form of its opcode.
fn read_form(kind: &ItemKind)
    ensures { HasForm kind.now }
{
    match kind {
        ItemKind::Code(instr, _) => {
            let _op = instr.op;
        }
        ItemKind::Mark(_, _) => {}
        ItemKind::Phi(_, _) => {}
    }
}

/// The changes that the classes encode: an entity has changed if it doesn't have its own class any more.
fn changes(
    alloc: Global,
    held: &LocationTracker,
    tracking: &Tracking,
) -> Result<Changes, AllocError>
    requires few { length tracking.now.things.now < 4294967295 }
    requires tracked { AreTracked tracking.now.things.now }
    requires things { AreThings tracking.now.variables.now tracking.now.things.now }
    requires index { Indexes tracking.now.things.now tracking.now.index.now }
    requires parts { length held.now.parts.items ≡ length tracking.now.variables.now }
    ensures changes { IfOk result (λ changes. (class : Classes) →
        Holds tracking.now.variables.now (map name_of tracking.now.things.now) tracking.now.index.now
        tracking.now.settled.now held.now class → AreChanges tracking.now.things.now class changes) }
    ensures within { IfOk result (λ changes. AreWithin (length tracking.now.things.now) changes) }
{
    let count = tracking.things.len();
    let mut changes = Changes::new(alloc);
    for j in 0..count {
        let class = class_of(held, tracking, j, &tracking.things[j]);
        if class != j + 1 {
            changes.push(Change {
                thing: j as u32,
                source: source_of(count, class)?,
            })?;
        }
    }
    Ok(changes)
}

/// The class of the entity at an index.
fn class_of(held: &LocationTracker, tracking: &Tracking, j: usize, thing: &Tracked) -> usize
    requires at { slice_get tracking.now.things.now j ≡ Some thing.now }
    requires tracked { AreTracked tracking.now.things.now }
    requires things { AreThings tracking.now.variables.now tracking.now.things.now }
    requires index { Indexes tracking.now.things.now tracking.now.index.now }
    requires parts { length held.now.parts.items ≡ length tracking.now.variables.now }
    ensures { (class : Classes) → Holds tracking.now.variables.now (map name_of tracking.now.things.now)
        tracking.now.index.now tracking.now.settled.now held.now class → result ≡ class (name_of thing.now) }
{
    match thing {
        Tracked::Register(r) => held.register(*r),
        Tracked::Slot(n) => held.place(slot_place(*n)),
        Tracked::Pair(q) => class_of_pair(held, tracking, j, *q),
        Tracked::Part(_) => part_class(held, j),
        Tracked::Number(_) => settled_class(tracking, j),
    }
}

fn part_class(held: &LocationTracker, j: usize) -> usize
    requires { j < length held.now.parts.items }
    ensures { result ≡ slice_index held.now.parts.items j }
{
    held.parts[j]
}

/// The class of the entity at an index at the start of the block.
fn settled_class(tracking: &Tracking, j: usize) -> usize
    ensures { result ≡ slice_index tracking.now.settled.now j }
{
    if j < tracking.settled.len() {
        tracking.settled[j]
    } else {
        0
    }
}

/// The class of the pair at an index: that which an item defined, or else the one at the start of the block.
fn class_of_pair(held: &LocationTracker, tracking: &Tracking, j: usize, q: OperandPair) -> usize
    ensures { result ≡ given_or (get is_key held.now.pairs (q.number, q.operand)) (slice_index tracking.now.settled.now j) }
{
    match defined_class(held, q) {
        Some(class) => class,
        None => settled_class(tracking, j),
    }
}

/// The class of a pair that an item defined, if one did.
fn defined_class(held: &LocationTracker, q: OperandPair) -> Option<usize>
    ensures { result ≡ get is_key held.now.pairs (q.number, q.operand) }
{
    if held.pairs.is_empty() {
        return None;
    }
    let (number, operand) = key(q);
    held.pairs.get(&(number, operand)).copied()
}

/// The source that a class encodes, for this many tracked entities.
fn source_of(things: usize, class: usize) -> Result<Source, AllocError>
    requires { things < 4294967295 }
    ensures { IfOk result (λ s. s ≡ decoded things class) }
{
    if class == 0 {
        return Ok(Source::Nameless);
    }
    let own = class - 1;
    if own < things {
        return Ok(Source::Was(own as u32));
    }
    new_source(own - things)
}

fn new_source(code: usize) -> Result<Source, AllocError>
    ensures { IfOk result (λ s. s ≡ new_of code) }
{
    let index = code / REGISTERS;
    if index >= MOST_ITEMS {
        return Err(AllocError);
    }
    match physical((code % REGISTERS) as u32) {
        None => Err(AllocError),
        Some(r) => Ok(Source::New(index as u32, r)),
    }
}
