//! Slots for virtual registers. Each virtual register that code still names or that is still live somewhere lives in a
//! slot of its own afterwards, as a spilled register does: a use reads the slot, and a definition writes it. A debug value
//! of such a register refers to a DBG_PHI of its slot.
#![tactic(auto)]

pub use spill_pass::mir_type_facts_crate as mir_type_facts_crate;

pub mod choice;
pub mod settle;
