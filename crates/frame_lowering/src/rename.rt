//! Items with slots replaced by their offsets.

ghost use Rattle.std.specs.Prelude.{◌≡◌, map, IfOk};
ghost use Rattle.frame_rule.specs.Rule.{renamed_operand, renamed_code, renamed_place, renamed_kind, renamed};

use crate::slots::SlotOffsets;
use mir_func::item::{Item, ItemKind};
use rv64_instr::instr::Instr;
use rv64_instr::operand::{Operand, Operands};
use rv64_instr::place::Place;
use std::alloc::{AllocError, Global};

/// The item with slots replaced by their offsets.
pub fn renamed(alloc: Global, slots: &SlotOffsets, i: &Item) -> Result<Item, AllocError>
    ensures { IfOk result (λ made. made ≡ renamed slots.now i.now) }
{
    Ok(Item {
        kind: renamed_kind(alloc, slots, &i.kind)?,
        origin: i.origin,
        loc: i.loc,
    })
}

fn renamed_kind(alloc: Global, slots: &SlotOffsets, kind: &ItemKind) -> Result<ItemKind, AllocError>
    ensures { IfOk result (λ made. made ≡ renamed_kind slots.now kind.now) }
{
    match kind {
        ItemKind::Code(i, number) => Ok(ItemKind::Code(renamed_code(alloc, slots, i)?, *number)),
        ItemKind::Mark(variable, value) => Ok(ItemKind::Mark(*variable, *value)),
        ItemKind::Phi(place, number) => Ok(ItemKind::Phi(renamed_place(slots, place), *number)),
    }
}

fn renamed_code(alloc: Global, slots: &SlotOffsets, i: &Instr) -> Result<Instr, AllocError>
    ensures { IfOk result (λ made. made ≡ renamed_code slots.now i.now) }
{
    Ok(Instr {
        op: i.op,
        operands: renamed_operands(alloc, slots, i.operands.as_slice())?,
        volatile: i.volatile,
    })
}

fn renamed_operands(
    alloc: Global,
    slots: &SlotOffsets,
    operands: &[Operand],
) -> Result<Operands, AllocError>
    ensures { IfOk result (λ made. made ≡ map (renamed_operand slots.now) operands.now) }
{
    let mut made = Operands::new(alloc);
    for operand in operands {
        made.push(renamed_operand(slots, operand)?)?;
    }
    Ok(made)
}

fn renamed_operand(slots: &SlotOffsets, operand: &Operand) -> Result<Operand, AllocError>
    ensures { IfOk result (λ made. made ≡ renamed_operand slots.now operand.now) }
{
    match operand {
        Operand::Slot(n) => Ok(Operand::Slot(slots.of(*n))),
        Operand::Outgoing(n) => Ok(Operand::Outgoing(slots.of(*n))),
        Operand::Def(_)
        | Operand::Use(_)
        | Operand::ImplicitDef(_)
        | Operand::ImplicitUse(_)
        | Operand::Imm(_)
        | Operand::Object(_)
        | Operand::Part(_, _)
        | Operand::GlobalRegisters
        | Operand::Block(_)
        | Operand::Symbol(_)
        | Operand::Mask => operand.copy(),
    }
}

fn renamed_place(slots: &SlotOffsets, place: &Option<Place>) -> Option<Place>
    ensures { result ≡ renamed_place slots.now place.now }
{
    match place {
        Some(Place::Slot(n)) => Some(Place::Slot(slots.of(*n))),
        Some(Place::Register(_)) | Some(Place::Const(_)) | None => *place,
    }
}
