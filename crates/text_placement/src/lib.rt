//! Code where a linker places it: after its relocations it is what a machine runs in the environment of the placement.
#![tactic(auto)]

pub mod laws;
