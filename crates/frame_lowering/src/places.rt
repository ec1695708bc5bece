//! The offsets of slots and saved registers.

ghost use Rattle.std.specs.Prelude.{◌≡◌, ◌≤◌, length, IfOk};
ghost use Rattle.mir_func.specs.Limits.{MAX_SLOTS};
ghost use Rattle.frame_rule.specs.Rule.{slot_places, saved_places};

use base_ids::function_ids::SlotId;
use mir_func::framed::{Offsets, Saved, SavedRegister, SlotPlace};
use rv64_instr::reg::Reg;
use std::alloc::{AllocError, Global};

/// The size in bytes of a spill slot or of a save slot.
pub const DOUBLEWORD: u32 = 8;

/// The offsets of slots, one after the other from x2 on.
pub fn slot_places(alloc: Global, slots: &[SlotId]) -> Result<Offsets, AllocError>
    requires { length slots.now ≤ MAX_SLOTS }
    ensures { IfOk result (λ places. places ≡ slot_places 0 slots.now) }
{
    let mut places = Offsets::new(alloc);
    let mut offset = 0;
    for slot in slots {
        places.push(SlotPlace {
            slot: *slot,
            offset,
        })?;
        offset += DOUBLEWORD;
    }
    Ok(places)
}

/// The save slots of registers, one after the other from an offset on, in bytes from x2.
pub fn saved_places(alloc: Global, from: u32, registers: &[Reg]) -> Result<Saved, AllocError>
    requires few { length registers.now ≤ 13 }
    requires below { from ≤ 4096 }
    ensures { IfOk result (λ places. places ≡ saved_places from registers.now) }
{
    let mut places = Saved::new(alloc);
    let mut offset = from;
    for register in registers {
        places.push(SavedRegister {
            register: *register,
            offset,
        })?;
        offset += DOUBLEWORD;
    }
    Ok(places)
}
