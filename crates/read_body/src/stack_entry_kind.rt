//! The frame of a function: which of its stack entries are spill slots, and which are stack objects.

ghost use Rattle.std.specs.Prelude.{◌≡◌, ◌+◌, ◌^◌, ◌≤◌, ◌<◌, All, IfOk, OnOk, length};
ghost use Rattle.mir_func.specs.Limits.{MAX_SLOTS};
ghost use Rattle.read_body.specs.StackEntryKind.{IsStackEntry, is_stack_object, with_slot, slots_of, with_object, local_block, objects_of, with_id, ids_of_objects};

use crate::first_use_order::FirstUseOrder;
use base_ids::function_ids::ObjectId;
use base_list::List;
use mir_func::func::SlotIds;
use mir_func::object::{Object, Objects, next_end, place_of, reach_after, up_to};
use read_declarations::stack::StackEntry;
use std::alloc::{AllocError, Global};

/// The size of a spill slot, in bytes.
const SLOT_SIZE: u32 = 8;

/// Whether a stack entry is an object: it has a local offset, its size isn't that of a spill slot, or code names it as
/// an object.
fn is_stack_object(named: &FirstUseOrder, entry: &StackEntry) -> bool
    ensures { result ≡ is_stack_object named.now entry.now }
{
    entry.local_offset.is_some()
        || entry.size != SLOT_SIZE
        || named.has(u64::from(entry.id.number()))
}

/// Appends a stack entry, if it is a spill slot.
fn add_slot(
    slots: &mut SlotIds,
    named: &FirstUseOrder,
    entry: &StackEntry,
) -> Result<(), AllocError>
    ensures { OnOk result (slots.new ≡ with_slot named.now slots.old entry.now) }
{
    if is_stack_object(named, entry) {
        return Ok(());
    }
    slots.push(entry.id)
}

/// The spill slots among stack entries, where `named` are those that code names as objects.
pub fn slots(
    alloc: Global,
    named: &FirstUseOrder,
    entries: &[StackEntry],
) -> Result<SlotIds, AllocError>
    ensures { IfOk result (λ slots. slots ≡ slots_of named.now entries.now) }
{
    let mut slots = List::new(alloc);
    for entry in entries {
        add_slot(&mut slots, named, entry)?;
    }
    Ok(slots)
}

/// Stack objects with their offsets.
#[derive(Drop)]
pub struct ObjectLayout {
    /// The objects.
    pub objects: Objects,
    /// The end of the last one above the local block, in bytes.
    pub end: u64,
}

/// The size of the local block of stack entries.
fn local_block(entries: &[StackEntry]) -> u64
    ensures value { result ≡ local_block entries.now }
    ensures small { result ≤ 2 ^ 32 }
{
    let mut reach = 0;
    for entry in entries {
        reach = reach_after(reach, entry.local_offset);
    }
    up_to(16, u64::from(reach))
}

/// Places a stack entry, if it is an object: in a local block of this size if it has a local offset, and else after those
/// before it, at the least multiple of its alignment that isn't below their end.
fn lay(
    laid: &mut ObjectLayout,
    named: &FirstUseOrder,
    block: u64,
    entry: &StackEntry,
) -> Result<(), AllocError>
    requires each { IsStackEntry entry.now }
    requires room { laid.old.end < 2 ^ 40 }
    requires block { block ≤ 2 ^ 32 }
    ensures laid { OnOk result (laid.new ≡ with_object named.now block laid.old entry.now) }
    ensures bound { OnOk result (laid.new.end ≤ laid.old.end + 2147483648) }
{
    if !is_stack_object(named, entry) {
        return Ok(());
    }
    let offset = place_of(block, laid.end, entry.align, entry.local_offset);
    laid.end = next_end(laid.end, offset + u64::from(entry.size), entry.local_offset);
    laid.objects.push(Object {
        id: ObjectId(entry.id.number()),
        size: entry.size,
        align: entry.align,
        local_offset: entry.local_offset,
        fixed_offset: None,
        offset,
    })
}

/// The stack objects among stack entries, in declared order.
pub fn objects(
    alloc: Global,
    named: &FirstUseOrder,
    entries: &[StackEntry],
) -> Result<ObjectLayout, AllocError>
    requires few { length entries.now ≤ MAX_SLOTS }
    requires each { All IsStackEntry entries.now }
    ensures { IfOk result (λ laid. laid ≡ objects_of named.now entries.now) }
{
    let block = local_block(entries);
    let mut laid = ObjectLayout {
        objects: List::new(alloc),
        end: block,
    };
    for entry in entries {
        lay(&mut laid, named, block, entry)?;
    }
    Ok(laid)
}

/// Inserts the number of a stack entry, if it is an object.
fn meet_object(
    ids: &mut FirstUseOrder,
    named: &FirstUseOrder,
    entry: &StackEntry,
) -> Result<(), AllocError>
    ensures { OnOk result (ids.new ≡ with_id named.now ids.old entry.now) }
{
    if !is_stack_object(named, entry) {
        return Ok(());
    }
    ids.meet(u64::from(entry.id.number()))
}

/// The set of the numbers of the objects among stack entries.
pub fn object_ids(
    alloc: Global,
    named: &FirstUseOrder,
    entries: &[StackEntry],
) -> Result<FirstUseOrder, AllocError>
    ensures { IfOk result (λ ids. ids ≡ ids_of_objects named.now entries.now) }
{
    let mut ids = FirstUseOrder::new(alloc);
    for entry in entries {
        meet_object(&mut ids, named, entry)?;
    }
    Ok(ids)
}
