//! Debug values and DBG_PHIs of blocks in which registers are spilled.

ghost use Rattle.std.specs.Prelude.{◌≡◌, ◌++◌, ◌+◌, ◌<◌, ◌^◌, Some, IfOk, OnOk};
ghost use Rattle.pass_trait.specs.Rule.{item, item_before, first_operand};
ghost use Rattle.spill_code.specs.Rewrite.{slot_of};
ghost use Rattle.spill_debug.specs.RewrittenDebugItems.{is_scratch, is_scratch_place, value_left, place_left, phi_and_mark};
ghost use Rattle.spill_debug.specs.RewrittenDebugItems.{mark_asked, kind_asked, number_past, next_number};
ghost use Rattle.spill_debug.specs.RewrittenDebugItems.{number_behind, items_asked, number_beyond, blocks_asked};

use base_ids::function_ids::{DebugNumber, OperandIndex};
use mir_func::block::{Block, Blocks};
use mir_func::debug_substitution::OperandPair;
use mir_func::item::{Item, ItemKind, Items};
use mir_func::location::Loc;
use mir_func::position::{Origin, position_of};
use mir_func::variable::{MarkValue, VarId};
use rv64_instr::place::Place;
use rv64_instr::reg::Reg;
use spill_code::spilling::{Spilling, slot_of};
use std::alloc::{AllocError, Global};

/// The blocks, in which debug values of spilled registers refer to new DBG_PHIs with fresh numbers from `fresh` on, in
/// the order of the text, and debug values and DBG_PHIs of scratch registers are undef.
pub fn blocks_asked(
    alloc: Global,
    s: &Spilling,
    fresh: u32,
    blocks: &[Block],
) -> Result<Blocks, AllocError>
    requires { number_beyond s.now.homes fresh blocks.now < 2 ^ 32 }
    ensures { IfOk result (λ made. made ≡ blocks_asked s.now fresh blocks.now) }
{
    let mut fresh = fresh;
    let mut made = Blocks::new(alloc);
    for b in blocks {
        made.push(block_asked(alloc, s, &mut fresh, b)?)?;
    }
    Ok(made)
}

fn block_asked(alloc: Global, s: &Spilling, fresh: &mut u32, b: &Block) -> Result<Block, AllocError>
    requires { number_behind s.now.homes fresh.old b.now.items < 2 ^ 32 }
    ensures made { IfOk result (λ made. made ≡ record {
      id = b.now.id;
      items = items_asked s.now fresh.old b.now.items;
      source_end = b.now.source_end;
    }) }
    ensures fresh { OnOk result (fresh.new ≡ number_behind s.now.homes fresh.old b.now.items) }
{
    let mut items = Items::new(alloc);
    push_items(s, fresh, b.items.as_slice(), &mut items)?;
    Ok(Block {
        id: b.id,
        items,
        source_end: b.source_end,
    })
}

fn push_items(
    s: &Spilling,
    fresh: &mut u32,
    items: &[Item],
    made: &mut Items,
) -> Result<(), AllocError>
    requires { number_behind s.now.homes fresh.old items.now < 2 ^ 32 }
    ensures made { OnOk result (made.new ≡ made.old ++ items_asked s.now fresh.old items.now) }
    ensures fresh { OnOk result (fresh.new ≡ number_behind s.now.homes fresh.old items.now) }
{
    for i in items {
        push_item(s, fresh, i, made)?;
    }
    Ok(())
}

fn push_item(s: &Spilling, fresh: &mut u32, i: &Item, made: &mut Items) -> Result<(), AllocError>
    requires { next_number s.now.homes fresh.old i.now.kind < 2 ^ 32 }
    ensures made { OnOk result (made.new ≡ made.old ++ kind_asked s.now fresh.old i.now.kind i.now.origin i.now.loc) }
    ensures fresh { OnOk result (fresh.new ≡ next_number s.now.homes fresh.old i.now.kind) }
{
    match &i.kind {
        ItemKind::Mark(v, MarkValue::At(r)) => push_mark(s, fresh, v, *r, i.origin, i.loc, made),
        ItemKind::Phi(place, number) => made.push(Item {
            kind: ItemKind::Phi(place_left(s, *place), *number),
            origin: i.origin,
            loc: i.loc,
        }),
        ItemKind::Code(_, _)
        | ItemKind::Mark(_, MarkValue::Nothing)
        | ItemKind::Mark(_, MarkValue::Constant(_))
        | ItemKind::Mark(_, MarkValue::Pair(_)) => made.push(i.copy()?),
    }
}

/// Appends a debug value of a register, after a new DBG_PHI if the register is spilled.
fn push_mark(
    s: &Spilling,
    fresh: &mut u32,
    v: &VarId,
    r: Reg,
    origin: Origin,
    loc: Loc,
    made: &mut Items,
) -> Result<(), AllocError>
    requires { number_past fresh.old (slot_of s.now.homes r) < 2 ^ 32 }
    ensures made { OnOk result (made.new ≡ made.old ++ mark_asked s.now fresh.old v.now r (slot_of s.now.homes r)
        origin loc) }
    ensures fresh { OnOk result (fresh.new ≡ number_past fresh.old (slot_of s.now.homes r)) }
{
    match slot_of(s.homes.as_slice(), r) {
        None => made.push(Item {
            kind: ItemKind::Mark(*v, value_left(s, r)),
            origin,
            loc,
        }),
        Some(_) => push_phi(fresh, v, r, origin, loc, made),
    }
}

/// Appends a DBG_PHI of a register with the fresh number, and a DBG_INSTR_REF to that number.
fn push_phi(
    fresh: &mut u32,
    v: &VarId,
    r: Reg,
    origin: Origin,
    loc: Loc,
    made: &mut Items,
) -> Result<(), AllocError>
    requires { fresh.old + 1 < 2 ^ 32 }
    ensures made { OnOk result (made.new ≡ made.old ++ phi_and_mark fresh.old v.now r origin loc) }
    ensures fresh { OnOk result (fresh.new ≡ fresh.old + 1) }
{
    let number = *fresh;
    *fresh += 1;
    made.push(phi_of(number, r, &origin))?;
    made.push(mark_of(number, v, origin, loc))
}

/// A DBG_PHI of a register with a number, right before the position of the origin.
fn phi_of(number: u32, r: Reg, origin: &Origin) -> Item
    ensures { result ≡ item_before (ItemKind.Phi (Some (Place.Register r)) number) origin.now }
{
    Item {
        kind: ItemKind::Phi(Some(Place::Register(r)), DebugNumber(number)),
        origin: Origin::Before(position_of(*origin)),
        loc: Loc::Absent,
    }
}

/// A DBG_INSTR_REF to operand 0 of a number.
fn mark_of(number: u32, v: &VarId, origin: Origin, loc: Loc) -> Item
    ensures { result ≡ item (ItemKind.Mark v.now (MarkValue.Pair (first_operand number))) origin loc }
{
    let pair = OperandPair {
        number: DebugNumber(number),
        operand: OperandIndex(0),
    };
    Item {
        kind: ItemKind::Mark(*v, MarkValue::Pair(pair)),
        origin,
        loc,
    }
}

/// The value of a debug value of a register that isn't spilled: undef for a scratch register.
fn value_left(s: &Spilling, r: Reg) -> MarkValue
    ensures { result ≡ value_left s.now r }
{
    if is_scratch(s, r) {
        MarkValue::Nothing
    } else {
        MarkValue::At(r)
    }
}

/// The location of a DBG_PHI: none for a scratch register.
fn place_left(s: &Spilling, place: Option<Place>) -> Option<Place>
    ensures { result ≡ place_left s.now place }
{
    match place {
        Some(p) => {
            if is_scratch_place(s, &p) {
                None
            } else {
                Some(p)
            }
        }
        None => None,
    }
}

fn is_scratch_place(s: &Spilling, place: &Place) -> bool
    ensures { result ≡ is_scratch_place s.now place.now }
{
    match place {
        Place::Register(r) => is_scratch(s, *r),
        Place::Slot(_) | Place::Const(_) => false,
    }
}

/// Whether the register is one of the scratch registers.
pub fn is_scratch(s: &Spilling, r: Reg) -> bool
    ensures { result ≡ is_scratch s.now r }
{
    r.number() == s.first.number() || r.number() == s.second.number()
}
