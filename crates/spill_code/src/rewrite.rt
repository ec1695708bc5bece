//! Blocks with spill code.

ghost use Rattle.std.specs.Prelude.{◌≡◌, ◌++◌, ◌<◌, ◌^◌, ◌+◌, IfOk, OnOk, All, Some, map, ℕ};
ghost use Rattle.mir_func.specs.Graph.{below};
ghost use Rattle.mir_func.specs.Positions.{position_of};
ghost use Rattle.spill_code.specs.Rewrite.{code_items, spilled_item};
ghost use Rattle.spill_code.specs.Rewrite.{spilled_items, spilled_block, first_block};
ghost use Rattle.spill_code.specs.Rewrite.{slot_of, place_in, spilled_place, spilled_blocks, first_defined};
ghost use Rattle.spill_code.specs.Room.{HasRoom, HaveRoom};

use crate::added::{push_entry, push_loads, push_store};
use crate::operands::{first_defined, spilled_code};
use crate::spilling::{SlotAssignment, Spilling, slot_of};
use base_ids::function_ids::DebugNumber;
use mir_func::block::{Block, Blocks};
use mir_func::item::{Item, ItemKind, Items};
use mir_func::location::Loc;
use mir_func::position::{Origin, Pos, position_of};
use mir_func::rv64_instr_crate::instr::Instr;
use mir_func::rv64_instr_crate::place::Place;
use mir_func::rv64_instr_crate::reg::Reg;
use std::alloc::{AllocError, Global};

/// The blocks, with reloads, spills and scratch registers for spilled registers, and at the start of the first one the
/// stores of spilled registers that are live into it.
pub fn spilled_blocks(
    alloc: Global,
    s: &Spilling,
    entry: &[SlotAssignment],
    blocks: &[Block],
) -> Result<Blocks, AllocError>
    requires { HaveRoom s.now blocks.now }
    ensures { IfOk result (λ made. made ≡ spilled_blocks s.now entry.now blocks.now) }
{
    let mut made = Blocks::new(alloc);
    if let Some((first, rest)) = blocks.split_first() {
        made.push(first_block(alloc, s, entry, first)?)?;
        push_blocks(alloc, s, rest, &mut made)?;
    }
    Ok(made)
}

fn first_block(
    alloc: Global,
    s: &Spilling,
    entry: &[SlotAssignment],
    b: &Block,
) -> Result<Block, AllocError>
    requires { All (HasRoom s.now) b.now.items }
    ensures { IfOk result (λ made. made ≡ first_block s.now entry.now b.now) }
{
    let mut items = Items::new(alloc);
    push_entry(alloc, b.id, entry, &mut items)?;
    push_items(alloc, s, b.items.as_slice(), &mut items)?;
    Ok(Block {
        id: b.id,
        items,
        source_end: b.source_end,
    })
}

fn push_blocks(
    alloc: Global,
    s: &Spilling,
    blocks: &[Block],
    made: &mut Blocks,
) -> Result<(), AllocError>
    requires { HaveRoom s.now blocks.now }
    ensures { OnOk result (made.new ≡ made.old ++ map (spilled_block s.now) blocks.now) }
{
    for b in blocks {
        made.push(spilled_block(alloc, s, b)?)?;
    }
    Ok(())
}

fn spilled_block(alloc: Global, s: &Spilling, b: &Block) -> Result<Block, AllocError>
    requires { All (HasRoom s.now) b.now.items }
    ensures { IfOk result (λ made. made ≡ spilled_block s.now b.now) }
{
    let mut items = Items::new(alloc);
    push_items(alloc, s, b.items.as_slice(), &mut items)?;
    Ok(Block {
        id: b.id,
        items,
        source_end: b.source_end,
    })
}

fn push_items(
    alloc: Global,
    s: &Spilling,
    items: &[Item],
    made: &mut Items,
) -> Result<(), AllocError>
    requires { All (HasRoom s.now) items.now }
    ensures { OnOk result (made.new ≡ made.old ++ spilled_items s.now items.now) }
{
    for i in items {
        push_item(alloc, s, i, made)?;
    }
    Ok(())
}

fn push_item(alloc: Global, s: &Spilling, i: &Item, made: &mut Items) -> Result<(), AllocError>
    requires { HasRoom s.now i.now }
    ensures { OnOk result (made.new ≡ made.old ++ spilled_item s.now i.now) }
{
    match &i.kind {
        ItemKind::Code(code, number) => push_code(alloc, s, code, *number, i.origin, i.loc, made),
        ItemKind::Mark(variable, value) => made.push(Item {
            kind: ItemKind::Mark(*variable, *value),
            origin: i.origin,
            loc: i.loc,
        }),
        ItemKind::Phi(place, number) => made.push(Item {
            kind: ItemKind::Phi(spilled_place(s.homes.as_slice(), *place), *number),
            origin: i.origin,
            loc: i.loc,
        }),
    }
}

/// Appends code with its reloads and its spill.
fn push_code(
    alloc: Global,
    s: &Spilling,
    code: &Instr,
    number: Option<DebugNumber>,
    origin: Origin,
    loc: Loc,
    made: &mut Items,
) -> Result<(), AllocError>
    requires { (n : ℕ) → first_defined s.now.homes code.now.operands ≡ Some n → (position_of origin).item + 1 < 2 ^ 32 }
    ensures { OnOk result (made.new ≡ made.old ++ code_items s.now code.now number origin loc) }
{
    let p = position_of(origin);
    push_loads(alloc, s, p, code.operands.as_slice(), made)?;
    made.push(Item {
        kind: ItemKind::Code(spilled_code(alloc, s, code)?, number),
        origin,
        loc,
    })?;
    match first_defined(s.homes.as_slice(), code.operands.as_slice()) {
        None => Ok(()),
        Some(slot) => push_store(alloc, below(p), s.first, slot, made),
    }
}

/// The position after it.
fn below(p: Pos) -> Pos
    requires { p.item + 1 < 2 ^ 32 }
    ensures { result ≡ below p }
{
    Pos {
        block: p.block,
        item: p.item + 1,
    }
}

/// The location, or the slot of its register if that is spilled.
fn spilled_place(homes: &[SlotAssignment], place: Option<Place>) -> Option<Place>
    ensures { result ≡ spilled_place homes.now place }
{
    match place {
        Some(p) => Some(place_now(homes, p)),
        None => None,
    }
}

fn place_now(homes: &[SlotAssignment], place: Place) -> Place
    ensures { Some result ≡ spilled_place homes.now (Some place) }
{
    match place {
        Place::Register(r) => place_of(homes, r),
        Place::Slot(_) | Place::Const(_) => place,
    }
}

fn place_of(homes: &[SlotAssignment], r: Reg) -> Place
    ensures { result ≡ place_in r (slot_of homes.now r) }
{
    match slot_of(homes, r) {
        Some(slot) => Place::Slot(slot),
        None => Place::Register(r),
    }
}
