//! The offsets of slots, by slot number.

ghost use Rattle.std.specs.Prelude.{◌≡◌, ◌≤◌, ℕ, length, IfOk};
ghost use Rattle.std.specs.Ordering.{nat_cmp};
ghost use Rattle.std.specs.BTreeMap.{get};
ghost use Rattle.mir_func.specs.Limits.{MAX_SLOTS};
ghost use Rattle.frame_rule.specs.Rule.{slot_offset};
ghost use Rattle.frame_lowering.specs.steps.Framing.{offset_in};

use crate::places::DOUBLEWORD;
use base_ids::function_ids::SlotId;
use mir_func::func::SlotIds;
use std::alloc::{AllocError, Global};
use std::collections::BTreeMap;
use std::marker::Model;

/// Slots in declared order, with their offsets from x2 in a map. Its model is the list of slots.
#[derive(Drop)]
pub struct SlotOffsets {
    list: SlotIds,
    offsets: BTreeMap<u32, u32>,
}

impl Model for SlotOffsets {
    ghost use Rattle.std.specs.Prelude.{List, ℕ};

    ghost Value = { List ℕ };

    ghost use Rattle.frame_lowering.specs.steps.Framing.{AreOffsets};

    ghost view = { λ s. s.list };

    ghost invariant = { λ s. AreOffsets s.list s.offsets };
}

impl SlotOffsets {
    /// Computes the offsets of these slots.
    pub fn new(alloc: Global, slots: &[SlotId]) -> Result<SlotOffsets, AllocError>
        requires { length slots.now ≤ MAX_SLOTS }
        ensures { IfOk result (λ s. s ≡ slots.now) }
    {
        let offsets = offsets(alloc, slots)?;
        Ok(SlotOffsets {
            list: SlotIds::from_slice(alloc, slots)?,
            offsets,
        })
    }

    /// The offset that names a slot in a function with its frame. An undeclared slot would be after all others.
    pub fn of(&self, slot: SlotId) -> SlotId
        ensures { result ≡ slot_offset self.now slot }
    {
        match self.offsets.get(&slot.number()) {
            Some(offset) => SlotId(*offset),
            None => SlotId(DOUBLEWORD * self.list.len() as u32),
        }
    }
}

/// The offsets by slot number. If a number is there twice, its first slot counts, so the map is filled from the last
/// slot.
fn offsets(alloc: Global, slots: &[SlotId]) -> Result<BTreeMap<u32, u32>, AllocError>
    requires { length slots.now ≤ MAX_SLOTS }
    ensures { IfOk result (λ offsets. (n : ℕ) → get nat_cmp offsets n ≡ offset_in 0 slots.now n) }
{
    let mut offsets = BTreeMap::new(alloc);
    let mut index = slots.len();
    while index > 0 {
        index -= 1;
        offsets.insert(slots[index].number(), DOUBLEWORD * index as u32)?;
    }
    Ok(offsets)
}
