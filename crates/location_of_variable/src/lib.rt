//! A variable's location from those of its parts: one place, or pieces. Debug values assign whole variables or
//! fragments (LLVM: DW_OP_LLVM_fragment). The parts that have debug values are grouped by variable. A variable's
//! location is the place required for the whole, or else pieces at the places required for fragments, in ascending
//! order.
#![tactic(auto)]

pub mod group;
pub mod laws;
pub mod location;
