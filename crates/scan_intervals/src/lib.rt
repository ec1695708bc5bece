//! Live intervals of virtual registers, for linear scan register allocation. The code of a function is numbered in the
//! order of its text. The live interval of a virtual register goes from the first code that names it, or right before or
//! after which it is live, to the last one (LLVM: `LiveIntervals`, `SlotIndexes`). A physical register is blocked at code
//! that names or sets it, or right after which it is live.
#![tactic(auto)]

pub mod blocked;
pub mod interval;
