//! Edits of a function item by item, which copy propagation and dead code elimination share: they preserve soundness
//! and the weak simulation.
//!
//! The weak simulation is the simulation without its clause on spill slot stores that were added at blocks' ends. An
//! edit is of one item of a block: an instruction gets another debug instruction number or none, a copy is deleted, or
//! a `DBG_PHI` is put before a copy.
//!
//! - `number_laws`: The debug instruction number of a copy moves to the instruction that defined the copied value, by a
//!   substitution, or to a `DBG_PHI` right before the copy. This preserves the weak simulation.
//!
//! - `edit_laws`: A function stays sound if copies are deleted from its blocks, `DBG_PHI`s are put before copies, and
//!   instructions get another debug instruction number or none, as long as no number is on two instructions.
#![tactic(auto)]

pub mod edit_laws;
pub mod number_laws;
