//! Proofs about spilling: it preserves soundness and the simulation; and what happens to debug values, what is reported
//! as lost, and how large the result is.
//!
//! - `strip_laws`: Spill code doesn't depend on debug items. Rewriting debug values changes no code, and spilling is
//!   the same with and without debug items.
//!
//! - `sound_laws`: A function with spilled registers is sound, if the choice of registers satisfies the conditions of
//!   spilling, and its new slots are distinct and not too many.
//!
//! - `asked_laws`: Each debug value of a spilled register becomes a DBG_INSTR_REF to a fresh DBG_PHI right before it,
//!   and each one of a scratch register becomes undef. This preserves the simulation.
//!
//! - `whole_laws`: The rule's choice: the function after spilling what the rule chooses, with its debug values and
//!   slots, and the laws of the choice alone.
//!
//! - `joined_laws`: Spilling as a whole: debug values are rewritten, and the registers that the rule chooses are
//!   spilled. This joins the laws about each of these.
//!
//! - `size_laws`: The size of the result: an instruction becomes at most four items, and a debug value at most two.
//!
//! - `live_in_laws`: The registers live into the function are the same with and without debug items.
//!
//! - `step_laws`: Spilling as a step: its code rule and its debug rule, and that the code after it is related to the
//!   code before it by the code rule.
//!
//! - `item_laws`: The effect of spilling on each item, by the step's debug rule.
//!
//! - `cause_laws`: The causes of losses: scratch registers are used if some register is spilled, spilled registers get
//!   new slots, and a register that isn't spilled has the first reason that applies.
//!
//! - `kept_laws`: Spilling guarantees what a step must: the function stays sound, its code is determined by the code
//!   rule, and each debug item is kept, refers to a slot, or is lost with its cause.
#![tactic(auto)]

pub use pass_salvage as pass_salvage_crate;
pub use pass_trait as pass_trait_crate;
pub use pass_trait::mir_substitution_crate as mir_substitution_crate;
pub use spill_debug as spill_debug_crate;
pub use spill_select as spill_select_crate;
pub use spill_select::spill_rule_crate as spill_rule_crate;

pub mod asked_laws;
pub mod cause_laws;
pub mod item_laws;
pub mod joined_laws;
pub mod kept_laws;
pub mod live_in_laws;
pub mod size_laws;
pub mod sound_laws;
pub mod step_laws;
pub mod strip_laws;
pub mod whole_laws;
