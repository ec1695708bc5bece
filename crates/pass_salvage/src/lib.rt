//! Salvaging the debug instruction number of a copy that a pass removes (LLVM: salvaging of debug information). If code
//! above the copy, in its block, defined the copied value, a substitution makes the number refer to an operand of that
//! code. Otherwise a DBG_PHI in the copy's position reads the value from the copied register. `salvage` does this for
//! one copy, and leaves the copy and the DBG_PHI to its caller; a pass calls it for one copy after the other, in an
//! order of its own, and says by a `Lookup` how the items above are searched. Fresh numbers are counted up from one
//! `fresh_number`. The laws say that this preserves the simulation.
#![tactic(auto)]

pub use pass_trait as pass_trait_crate;
pub use pass_trait::mir_substitution_crate as mir_substitution_crate;

pub mod above;
pub mod fresh;
pub mod lookup;
pub mod salvage;
pub mod salvage_action;
