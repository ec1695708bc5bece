//! Checks whether slots, stack objects and blocks are those of a sound function: one for each invariant of
//! functions.

ghost use Rattle.std.specs.Prelude.{◌≡◌, ◌↔◌, ◌++◌, ℕ, List, filter_map, All, IfOk, OnOk, IsTrue};
ghost use Rattle.rv64_instr.specs.Row.{Row, Calls, CallSite, row_of, outgoing_words};
ghost use Rattle.rv64_instr.specs.Decoded.{Shows};
ghost use Rattle.mir_func.specs.Exits.{Leaves};
ghost use Rattle.mir_func.specs.Sound.{
  ids_of,
  items_of,
  TargetIn,
  TargetsIn,
  SlotIn,
  PassedIn,
  SlotsIn,
  BeginWith,
  PassesFirst,
  KindPassesFirst,
  ObjectIn,
  ObjectsIn,
  IsNotPointer,
  LeavesPointer,
  code_number,
  OriginIn,
  IsJumpAtMost,
  MayFollow,
  EndsWell,
  Closes,
  LastCloses,
  IsSound,
};
ghost use Rattle.mir_func.specs.steps.Checks.{PhiIsApart, IsSoundItem, IsSoundBlock, AreSoundParts};

use crate::block::Block;
use crate::exit::Exit;
use crate::item::{Item, ItemKind};
use crate::limits::{MAX_BLOCKS, MAX_SLOTS};
use crate::number_set::Numbers;
use crate::object::Object;
use crate::object_sizes::ObjectSizes;
use crate::position::Origin;
use crate::sound_objects::are_objects_sound;
use rv64_instr::arithmetic::{load_width, store_width};
use rv64_instr::base_ids_crate::function_ids::{DebugNumber, SlotId};
use rv64_instr::decoded::{Base, Decoded};
use rv64_instr::instr::Instr;
use rv64_instr::operand::Operand;
use rv64_instr::place::Place;
use std::alloc::{AllocError, Global};

/// What the items of a function may name, with fast look-up.
#[derive(Drop)]
pub struct Declared {
    /// The numbers of its blocks.
    pub blocks: Numbers,
    /// The numbers of its slots.
    pub slots: Numbers,
    /// Its stack objects.
    pub objects: ObjectSizes,
    /// The debug instruction numbers of its code.
    pub codes: Numbers,
}

/// Whether these are the slots, the stack objects and the blocks of a sound function.
pub fn are_sound(
    alloc: Global,
    slots: &[SlotId],
    objects: &[Object],
    blocks: &[Block],
) -> Result<bool, AllocError>
    ensures { IfOk result (λ sound. (name : List ℕ) →
        IsTrue sound
        ↔ IsSound (record { name = name; slots = slots.now; objects = objects.now; blocks = blocks.now })) }
{
    if MAX_BLOCKS < blocks.len() {
        return Ok(false);
    }
    if MAX_SLOTS < slots.len() || MAX_SLOTS - slots.len() < objects.len() {
        return Ok(false);
    }
    if !are_objects_sound(alloc, objects)? {
        return Ok(false);
    }
    let declared = Declared {
        blocks: Numbers::new(alloc, block_numbers(alloc, blocks)?)?,
        slots: Numbers::new(alloc, slot_numbers(alloc, slots)?)?,
        objects: ObjectSizes::new(alloc, objects)?,
        codes: Numbers::new(alloc, code_numbers(alloc, blocks)?)?,
    };
    Ok(are_parts_sound(&declared, blocks))
}

/// The same apart from the counts and the objects, if the function declares this.
fn are_parts_sound(declared: &Declared, blocks: &[Block]) -> bool
    ensures { IsTrue result ↔ AreSoundParts declared.now blocks.now }
{
    declared.blocks.are_apart()
        && declared.slots.are_apart()
        && declared.codes.are_apart()
        && are_blocks_sound(declared, blocks)
        && closes_last(blocks)
}

fn are_blocks_sound(declared: &Declared, blocks: &[Block]) -> bool
    ensures { IsTrue result ↔ All (IsSoundBlock declared.now) blocks.now }
{
    blocks.iter().all(|b| is_block_sound(declared, b))
}

/// Whether a block is one of a sound function that declares this.
fn is_block_sound(declared: &Declared, b: &Block) -> bool
    ensures { IsTrue result ↔ IsSoundBlock declared.now b.now }
{
    are_items_sound(declared, b) && ends_well(b.items.as_slice())
}

fn are_items_sound(declared: &Declared, b: &Block) -> bool
    ensures { IsTrue result ↔ All (IsSoundItem declared.now b.now) b.now.items }
{
    b.items
        .as_slice()
        .iter()
        .all(|i| is_item_sound(declared, b, i))
}

fn is_item_sound(declared: &Declared, b: &Block, i: &Item) -> bool
    ensures { IsTrue result ↔ IsSoundItem declared.now b.now i.now }
{
    is_target_there(&declared.blocks, &i.kind)
        && is_slot_there(&declared.slots, &i.kind)
        && are_first_passed(&declared.slots, &i.kind)
        && is_object_there(&declared.objects, &i.kind)
        && leaves_pointer(&i.kind)
        && is_phi_apart(&declared.codes, &i.kind)
        && is_origin_inside(b, i.origin)
}

/// The numbers of blocks, in order.
fn block_numbers(alloc: Global, blocks: &[Block]) -> Result<Vec<u32>, AllocError>
    ensures { IfOk result (λ ids. ids.items ≡ ids_of blocks.now) }
{
    blocks.iter().map(|b| b.id.number()).collect(alloc)
}

/// The numbers of slots, in order.
fn slot_numbers(alloc: Global, slots: &[SlotId]) -> Result<Vec<u32>, AllocError>
    ensures { IfOk result (λ ns. ns.items ≡ slots.now) }
{
    slots.iter().map(|s| s.number()).collect(alloc)
}

/// Whether the target of a branch is one of these blocks.
fn is_target_there(ids: &Numbers, kind: &ItemKind) -> bool
    ensures { IsTrue result ↔ TargetsIn ids.now kind.now }
{
    match kind {
        ItemKind::Code(i, _) => is_row_target_there(ids, &i.decoded()),
        ItemKind::Mark(_, _) | ItemKind::Phi(_, _) => true,
    }
}

fn is_row_target_there(ids: &Numbers, decoded: &Decoded) -> bool
    ensures { (row : Row) → Shows decoded.now row → (IsTrue result ↔ TargetIn ids.now row) }
{
    match *decoded {
        Decoded::Branches(_, _, _, n) => ids.contains(n.number()),
        Decoded::Jumps(n) => ids.contains(n.number()),
        _ => true,
    }
}

/// Whether a slot that an item names is one of these.
fn is_slot_there(slots: &Numbers, kind: &ItemKind) -> bool
    ensures { IsTrue result ↔ SlotsIn slots.now kind.now }
{
    match kind {
        ItemKind::Code(i, _) => {
            is_row_slot_there(slots, &i.decoded()) && are_passed_there(slots, i.operands.as_slice())
        }
        ItemKind::Phi(Some(Place::Slot(n)), _) => slots.contains(n.number()),
        ItemKind::Mark(_, _) | ItemKind::Phi(_, _) => true,
    }
}

fn is_row_slot_there(slots: &Numbers, decoded: &Decoded) -> bool
    ensures { (row : Row) → Shows decoded.now row → (IsTrue result ↔ SlotIn slots.now row) }
{
    match *decoded {
        Decoded::LoadsSlot(_, n) => slots.contains(n.number()),
        Decoded::StoresSlot(_, n) => slots.contains(n.number()),
        _ => true,
    }
}

/// Whether each slot that code passes to a callee is one of these.
fn are_passed_there(slots: &Numbers, operands: &[Operand]) -> bool
    ensures { IsTrue result ↔ All (PassedIn slots.now) operands.now }
{
    operands
        .iter()
        .all(|operand| is_passed_there(slots, operand))
}

fn is_passed_there(slots: &Numbers, operand: &Operand) -> bool
    ensures { IsTrue result ↔ PassedIn slots.now operand.now }
{
    match operand {
        Operand::Outgoing(n) => slots.contains(n.number()),
        _ => true,
    }
}

/// Whether the slots that a call passes are the first of these, in their order.
fn are_first_passed(slots: &Numbers, kind: &ItemKind) -> bool
    ensures { IsTrue result ↔ KindPassesFirst slots.now kind.now }
{
    match kind {
        ItemKind::Code(i, _) => passes_first(slots, i),
        ItemKind::Mark(_, _) | ItemKind::Phi(_, _) => true,
    }
}

fn passes_first(slots: &Numbers, i: &Instr) -> bool
    ensures { IsTrue result ↔ PassesFirst slots.now (row_of i.now) }
{
    let operands = i.operands.as_slice();
    is_row_passing_first(slots, operands, &i.decoded())
}

fn is_row_passing_first(slots: &Numbers, operands: &[Operand], decoded: &Decoded) -> bool
    ensures { (row : Row) → Shows decoded.now row
        → ((call : CallSite) → row ≡ Calls call → call.outgoing ≡ outgoing_words operands.now)
        → (IsTrue result ↔ PassesFirst slots.now row) }
{
    match *decoded {
        Decoded::Calls(_) => begin_with(slots.as_slice(), operands),
        _ => true,
    }
}

/// Whether the first of these slots are those that operands pass, in their order.
fn begin_with(slots: &[u32], operands: &[Operand]) -> bool
    ensures { IsTrue result ↔ BeginWith slots.now (outgoing_words operands.now) }
{
    let mut rest = slots;
    for operand in operands {
        if let Operand::Outgoing(n) = operand {
            let Some((first, behind)) = rest.split_first() else {
                return false;
            };
            if *first != n.number() {
                return false;
            }
            rest = behind;
        }
    }
    true
}

/// Whether there is a stack object that code names, with the bytes that it accesses.
fn is_object_there(objects: &ObjectSizes, kind: &ItemKind) -> bool
    ensures { IsTrue result ↔ ObjectsIn objects.now kind.now }
{
    match kind {
        ItemKind::Code(i, _) => is_row_object_there(objects, &i.decoded()),
        ItemKind::Mark(_, _) | ItemKind::Phi(_, _) => true,
    }
}

fn is_row_object_there(objects: &ObjectSizes, decoded: &Decoded) -> bool
    ensures { (row : Row) → Shows decoded.now row → (IsTrue result ↔ ObjectIn objects.now row) }
{
    match *decoded {
        Decoded::Addresses(_, n, _) => objects.has_bytes(n, 0, 0),
        Decoded::Loads(_, op, Base::ObjectAt(n), offset) => {
            objects.has_bytes(n, offset, load_width(op) as u64)
        }
        Decoded::Stores(op, _, Base::ObjectAt(n), offset) => {
            objects.has_bytes(n, offset, store_width(op) as u64)
        }
        _ => true,
    }
}

/// Whether no explicit operand of code is x2.
fn leaves_pointer(kind: &ItemKind) -> bool
    ensures { IsTrue result ↔ LeavesPointer kind.now }
{
    match kind {
        ItemKind::Code(i, _) => i.operands.as_slice().iter().all(|o| is_not_pointer(o)),
        ItemKind::Mark(_, _) | ItemKind::Phi(_, _) => true,
    }
}

fn is_not_pointer(operand: &Operand) -> bool
    ensures { IsTrue result ↔ IsNotPointer operand.now }
{
    match operand {
        Operand::Def(r) => r.number() != 2,
        Operand::Use(r) => r.number() != 2,
        _ => true,
    }
}

/// The numbers of code, in order.
fn code_numbers(alloc: Global, blocks: &[Block]) -> Result<Vec<u32>, AllocError>
    ensures { IfOk result (λ ns. ns.items ≡ filter_map (λ i. code_number i.kind) (items_of blocks.now)) }
{
    let mut numbers = Vec::new(alloc);
    for b in blocks {
        push_code_numbers(&mut numbers, b.items.as_slice())?;
    }
    Ok(numbers)
}

fn push_code_numbers(numbers: &mut Vec<u32>, items: &[Item]) -> Result<(), AllocError>
    ensures { OnOk result (numbers.new.items ≡ numbers.old.items ++ filter_map (λ i. code_number i.kind) items.now) }
{
    for i in items {
        if let Some(k) = code_number(&i.kind) {
            numbers.push(k.number())?;
        }
    }
    Ok(())
}

fn code_number(kind: &ItemKind) -> Option<DebugNumber>
    ensures { result ≡ code_number kind.now }
{
    match kind {
        ItemKind::Code(_, number) => *number,
        ItemKind::Mark(_, _) | ItemKind::Phi(_, _) => None,
    }
}

/// Whether the number of a phi is none of these.
fn is_phi_apart(numbers: &Numbers, kind: &ItemKind) -> bool
    ensures { IsTrue result ↔ PhiIsApart numbers.now kind.now }
{
    match kind {
        ItemKind::Phi(_, k) => !numbers.contains(k.number()),
        ItemKind::Code(_, _) | ItemKind::Mark(_, _) => true,
    }
}

/// Whether an origin is in its block.
fn is_origin_inside(b: &Block, origin: Origin) -> bool
    ensures { IsTrue result ↔ OriginIn b.now origin }
{
    match origin {
        Origin::Kept(p) => p.block == b.id && p.item < b.source_end,
        Origin::Before(p) => p.block == b.id && p.item <= b.source_end,
    }
}

/// Whether a block of these items ends with no branch, a return, a jump, a conditional branch, or a conditional
/// branch and a jump.
fn ends_well(items: &[Item]) -> bool
    ensures { IsTrue result ↔ EndsWell items.now }
{
    let mut rest = items;
    while let Some((i, tail)) = rest.split_first() {
        if !may_follow(i.kind.exit(), tail) {
            return false;
        }
        rest = tail;
    }
    true
}

/// Whether these items may come after one with this exit.
fn may_follow(exit: Exit, rest: &[Item]) -> bool
    ensures { IsTrue result ↔ MayFollow (exit) rest.now }
{
    match exit {
        Exit::Onward => true,
        Exit::Perhaps(_) => is_jump_at_most(rest),
        Exit::Always(_) | Exit::Final => rest.is_empty(),
    }
}

fn is_jump_at_most(items: &[Item]) -> bool
    ensures { IsTrue result ↔ IsJumpAtMost items.now }
{
    match items {
        [] => true,
        [j] => matches!(j.kind.exit(), Exit::Always(_)),
        _ => false,
    }
}

/// Whether there is a block, and control doesn't fall through the last one.
fn closes_last(blocks: &[Block]) -> bool
    ensures { IsTrue result ↔ LastCloses blocks.now }
{
    match blocks.last() {
        Some(b) => closes(b.items.as_slice()),
        None => false,
    }
}

fn closes(items: &[Item]) -> bool
    ensures { IsTrue result ↔ Closes items.now }
{
    match items.last() {
        Some(i) => leaves(i.kind.exit()),
        None => false,
    }
}

fn leaves(exit: Exit) -> bool
    ensures { IsTrue result ↔ Leaves (exit) }
{
    matches!(exit, Exit::Always(_) | Exit::Final)
}
