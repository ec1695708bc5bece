//! Laws of value numbers, called tokens (LLVM: `ValueIDNum`). A token names a value along one path through a
//! function. On the path of a run, registers, frame slots, pairs and parts of variables with one token hold one
//! value, and the tokens after some items are determined by those before them. The analysis of value locations
//! considers paths and tokens alone; these laws are why its results are true of runs.
#![tactic(auto)]

pub mod laws;
