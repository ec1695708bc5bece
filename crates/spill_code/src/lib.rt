//! Spill code. A spilled register has a spill slot. Code that names it is rewritten to scratch registers: reloads
//! before the code load what it reads, the first slot that it reads into the first scratch register and another slot
//! into the second, and a store after it spills what it defines. At the function's start the spilled registers that are
//! live into it are stored. A DBG_PHI of a spilled register becomes one of its slot. Which registers are spilled is
//! decided by other crates: here the choice is a parameter, a `Spilling`.
#![tactic(auto)]

pub mod added;
pub mod operands;
pub mod rewrite;
pub mod spilling;
