//! Debug values and DBG_PHIs under spilling. Those of a scratch register become undef, and are reported as lost. A
//! debug value of a spilled register becomes a DBG_INSTR_REF to a fresh number, whose DBG_PHI of the register is right
//! before it; `spill_code` then replaces the register by its slot. Code is unchanged here.
#![tactic(auto)]

pub mod laws;
pub mod lost;
pub mod marks;
