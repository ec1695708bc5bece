//! Salvage of the numbers of dead copies, before the copies are removed. A number is substituted by the code that
//! defined the copied value, or is put on a DBG_PHI before the copy. The copies of a function are visited from the last
//! to the first, so that dead code above a copy is still there when the copy's number is salvaged.
#![tactic(auto)]

pub mod dead_indices;
pub mod salvage_blocks;
pub mod salvage_numbers;
