//! The spilling pass. All registers of a reserve that may be spilled are spilled at once, by a rule that depends only
//! on code; a debug value of a spilled register refers to a DBG_PHI of its slot afterwards, and a DBG_PHI of it names
//! the slot.
#![tactic(auto)]

pub use mir_type_facts as mir_type_facts_crate;
pub use spill_proof::{
    pass_salvage_crate as pass_salvage_crate, spill_debug_crate as spill_debug_crate,
    spill_rule_crate as spill_rule_crate, spill_select_crate as spill_select_crate,
};

pub mod plan;
pub mod reserve;
pub mod spill;
