//! The interface of passes over functions (LLVM: a machine function pass), with the laws that every pass proves. A pass
//! changes a function and its substitutions in place. Three laws are true of every run. Simulation: if a source
//! simulates the function before the pass, it simulates the function after it, provided that the parts of the pass fit
//! together and the function has the matched block ends that the pass requires. Code: the code after the pass is
//! determined by the pass's code rule from the code before it, so debug items can't affect it. Debug: each debug value,
//! DBG_PHI, number and substitution is kept, or is in the list of losses with its cause, except for numbers that are
//! substituted or whose code defines nothing. The laws are clauses of `Pass::run`, over facts that each pass states of
//! itself. Passes compose: `Then` runs one after another and has the laws of both.
#![tactic(auto)]

pub use mir_substitution as mir_substitution_crate;

pub mod compose;
pub mod loss;
pub mod nops;
pub mod pass;
