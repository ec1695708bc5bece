//! Which registers are spilled to which slots, and which scratch registers replace them in code.

ghost use Rattle.std.specs.Prelude.{◌≡◌};
ghost use Rattle.spill_code.specs.Rewrite.{slot_of};

use base_ids::function_ids::SlotId;
use base_list::List;
use mir_func::rv64_instr_crate::reg::Reg;

/// A spilled register and the slot in which it lives (LLVM: the stack slot of a spilled register).
#[derive(Clone, Copy, Debug, PartialEq, Eq)]
pub struct SlotAssignment {
    /// The register.
    pub register: Reg,
    /// The slot.
    pub slot: SlotId,
}

/// The spilled registers with their slots, by ascending registers.
pub type SlotAssignments = List<SlotAssignment>;

/// The scratch registers, and the slots of spilled registers.
#[derive(Debug, Drop)]
pub struct Spilling {
    /// The scratch register for the first slot that code reads, and for what it defines.
    pub first: Reg,
    /// The scratch register for another slot that it reads.
    pub second: Reg,
    /// The slots of spilled registers.
    pub homes: SlotAssignments,
}

/// The slot of a register, if it is spilled.
pub fn slot_of(homes: &[SlotAssignment], register: Reg) -> Option<SlotId>
    ensures { result ≡ slot_of homes.now register }
{
    for home in homes {
        if home.register == register {
            return Some(home.slot);
        }
    }
    None
}
