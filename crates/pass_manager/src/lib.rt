//! The pass manager: it runs a list of passes in order, on a function and its substitutions. It has the guarantees of
//! its passes: the simulation is preserved, the code is determined by the code rules, and each debug item is kept or
//! its loss is reported. Each pass's losses are reported in order and without duplicates. A new pass is one variant of
//! `PassKind`, one line in each definition of `specs/Passes.antt`, and one arm of `run_pass`.
#![tactic(auto)]

pub mod exposed;
pub mod run;
