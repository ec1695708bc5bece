//! Frame slots.

ghost use Rattle.std.specs.Prelude.{◌≡◌, [], ℕ, Option, Some, None, OnOk, OnErr, cond, is_some, nat_eq};
ghost use Rattle.std.specs.List.{list_all, list_any};
ghost use Rattle.std.specs.Map.{lookup};
ghost use Rattle.rv64_instr.specs.Row.{outgoing_words};
ghost use Rattle.rv64_instr.specs.LocationEffects.{is_outgoing};
ghost use Rattle.sem_mir.specs.State.{updated};
ghost use Rattle.sem_interpreter.specs.Places.{SlotsHold};

use base_ids::function_ids::SlotId;
use indexmap::IndexMap;
use rv64_instr::operand::Operand;
use std::alloc::{AllocError, Global};
use std::marker::Model;

/// The contents of the frame slots that are written, by the slots' numbers.
#[derive(Drop)]
pub struct Slots {
    contents: IndexMap<u32, u64>,
}

impl Model for Slots {
    ghost use Rattle.std.specs.Prelude.{ℕ, List};

    ghost Value = { List (ℕ × ℕ) };

    ghost view = { λ s. s.contents.entries };
}

impl Slots {
    /// No slot is written. It takes no memory.
    pub fn new(alloc: Global) -> Slots
        ensures { result ≡ [] }
    {
        Slots {
            contents: IndexMap::new(alloc),
        }
    }

    /// The content of a slot, if it is written.
    pub fn read(&self, slot: SlotId) -> Option<u64>
        ensures { result ≡ lookup (nat_eq slot) self.now }
    {
        self.contents.get(&slot.number()).copied()
    }

    /// Writes a slot. A refused write changes nothing.
    pub fn write(&mut self, slot: SlotId, value: u64) -> Result<(), AllocError>
        ensures ok { OnOk result ((held : ℕ → Option ℕ) → SlotsHold self.old held
            → SlotsHold self.new (updated slot (Some value) held)) }
        ensures err { OnErr result (self.new ≡ self.old) }
    {
        self.contents.insert(slot.number(), value)?;
        Ok(())
    }

    /// Whether the slots that operands pass to a callee are written.
    pub fn are_passed(&self, operands: &[Operand]) -> bool
        ensures { result ≡ list_all (λ n. is_some (lookup (nat_eq n) self.now)) (outgoing_words operands.now) }
    {
        for operand in operands {
            if let Operand::Outgoing(n) = operand {
                if self.read(*n).is_none() {
                    return false;
                }
            }
        }
        true
    }

    /// Makes the slots that operands pass to a callee unwritten.
    pub fn clear_passed(&mut self, operands: &[Operand])
        ensures { (n : ℕ) → lookup (nat_eq n) self.new
            ≡ cond (list_any (is_outgoing n) operands.now) None (lookup (nat_eq n) self.old) }
    {
        for operand in operands {
            if let Operand::Outgoing(n) = operand {
                self.clear(*n);
            }
        }
    }

    /// Makes a slot unwritten.
    fn clear(&mut self, slot: SlotId)
        ensures { (n : ℕ) → lookup (nat_eq n) self.new ≡ cond (nat_eq n slot) None (lookup (nat_eq n) self.old) }
    {
        let _ = self.contents.swap_remove(&slot.number());
    }
}
