//! Reloads and spills that are added.

ghost use Rattle.std.specs.Prelude.{◌≡◌, ◌++◌, Some, IfOk, OnOk};
ghost use Rattle.spill_code.specs.Rewrite.{load, store, added, loads, stores, two_loads, loads_before, entry_stores};

use crate::operands::{first_used, other_used};
use crate::spilling::{SlotAssignment, Spilling};
use base_ids::function_ids::{BlockId, SlotId};
use mir_func::item::{Item, ItemKind, Items};
use mir_func::location::Loc;
use mir_func::position::{Origin, Pos};
use mir_func::rv64_instr_crate::instr::Instr;
use mir_func::rv64_instr_crate::op::{LoadOp, Op, StoreOp};
use mir_func::rv64_instr_crate::operand::{Operand, Operands};
use mir_func::rv64_instr_crate::reg::Reg;
use std::alloc::{AllocError, Global};

/// `LD r, slot` (LLVM: `loadRegFromStackSlot`).
fn load(alloc: Global, r: Reg, slot: SlotId) -> Result<Instr, AllocError>
    ensures { IfOk result (λ i. i ≡ load r slot) }
{
    let mut operands = Operands::new(alloc);
    operands.push(Operand::Def(r))?;
    operands.push(Operand::Slot(slot))?;
    operands.push(Operand::Imm(0))?;
    Ok(Instr {
        op: Op::Load(LoadOp::Ld),
        operands,
        volatile: false,
    })
}

/// `SD r, slot` (LLVM: `storeRegToStackSlot`).
fn store(alloc: Global, r: Reg, slot: SlotId) -> Result<Instr, AllocError>
    ensures { IfOk result (λ i. i ≡ store r slot) }
{
    let mut operands = Operands::new(alloc);
    operands.push(Operand::Use(r))?;
    operands.push(Operand::Slot(slot))?;
    operands.push(Operand::Imm(0))?;
    Ok(Instr {
        op: Op::Store(StoreOp::Sd),
        operands,
        volatile: false,
    })
}

/// Added code before a position, without number and debug location.
fn added(p: Pos, i: Instr) -> Item
    ensures { result ≡ added p i }
{
    Item {
        kind: ItemKind::Code(i, None),
        origin: Origin::Before(p),
        loc: Loc::Absent,
    }
}

/// Appends a load of the slot, if there is one.
fn push_load(
    alloc: Global,
    p: Pos,
    r: Reg,
    slot: Option<SlotId>,
    items: &mut Items,
) -> Result<(), AllocError>
    ensures { OnOk result (items.new ≡ items.old ++ loads p r slot) }
{
    match slot {
        None => Ok(()),
        Some(n) => items.push(added(p, load(alloc, r, n)?)),
    }
}

/// Appends a store into the slot.
pub fn push_store(
    alloc: Global,
    p: Pos,
    r: Reg,
    slot: SlotId,
    items: &mut Items,
) -> Result<(), AllocError>
    ensures { OnOk result (items.new ≡ items.old ++ stores p r (Some slot)) }
{
    items.push(added(p, store(alloc, r, slot)?))
}

/// Appends the reloads before code at a position.
pub fn push_loads(
    alloc: Global,
    s: &Spilling,
    p: Pos,
    operands: &[Operand],
    items: &mut Items,
) -> Result<(), AllocError>
    ensures { OnOk result (items.new ≡ items.old ++ loads_before s.now p operands.now) }
{
    match first_used(s.homes.as_slice(), operands) {
        None => Ok(()),
        Some(slot) => push_both(alloc, s, p, slot, operands, items),
    }
}

/// Appends the reload of the first slot, and that of another, if there is one.
fn push_both(
    alloc: Global,
    s: &Spilling,
    p: Pos,
    slot: SlotId,
    operands: &[Operand],
    items: &mut Items,
) -> Result<(), AllocError>
    ensures { OnOk result (items.new ≡ items.old ++ two_loads s.now p operands.now (Some slot)) }
{
    items.push(added(p, load(alloc, s.first, slot)?))?;
    let other = other_used(s.homes.as_slice(), slot, operands);
    push_load(alloc, p, s.second, other, items)
}

/// Appends the stores at the start of the first block.
pub fn push_entry(
    alloc: Global,
    block: BlockId,
    entry: &[SlotAssignment],
    items: &mut Items,
) -> Result<(), AllocError>
    ensures { OnOk result (items.new ≡ items.old ++ entry_stores block entry.now) }
{
    let start = Pos { block, item: 0 };
    for home in entry {
        items.push(added(start, store(alloc, home.register, home.slot)?))?;
    }
    Ok(())
}
