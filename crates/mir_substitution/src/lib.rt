//! Substitutions of debug instruction numbers (LLVM: `debugValueSubstitutions`): when a pass merges or replaces
//! an instruction whose value a mark refers to by number, it adds an entry for where the value is instead.
//! Entries form chains, and a pair's value is that of the end of its chain. A chain that is cyclic, or that has
//! an entry for a part of a register, has no end. The ends of all chains stand in a disjoint-set forest, so that a
//! pair's end is found in a number of look-ups that grows with the logarithm of the number of entries at most.
#![tactic(auto)]

pub use mir_func as mir_func_crate;
pub use mir_func::{base_ids_crate as base_ids_crate, base_list_crate as base_list_crate};

pub mod chain;
mod forest;
pub mod substitutions;
