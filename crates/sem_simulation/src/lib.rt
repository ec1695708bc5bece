//! Simulation laws: if a program's run refines the source's, so does the run of the changed program. The general law is
//! about a program that does what another does, except for what it leaves out. The others are about lists of items:
//! changes in place, added code, bypassed blocks, and the step from instructions to the machine's words. Each requires
//! facts of lists and of single items, by a matching relation of its user's, and never facts of runs.
#![tactic(auto)]

pub use sem_mir::{mir_func_crate as mir_func_crate, rv64_instr_crate as rv64_instr_crate};

pub mod laws;
