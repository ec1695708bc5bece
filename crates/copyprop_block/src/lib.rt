//! Copy propagation within one block. Along the block the available copies are known: which register has the same value
//! as a root. A copy adds an entry, and a definition of either register removes it. In each instruction first every
//! explicit use of a register with a root is replaced by the root. Then a copy of a register to itself, or to a
//! register that has it as root, is removed, and its number is salvaged, in the order of the text. Implicit operands
//! are unchanged, and debug items don't affect what is removed. `copy_items` does this for one block, exactly by the
//! rule.
#![tactic(auto)]

pub use pass_salvage as pass_salvage_crate;

pub mod copies;
pub mod roots;
