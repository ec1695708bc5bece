//! The location lists of an object for linkers and debuggers, which are true in every frame: those of compiled functions,
//! made from their machine code. Where the machine stands they are those of `compile_function`, and where a debugger
//! looks a suspended frame up they give what its callee keeps.
#![tactic(auto)]

pub mod lists;
pub mod substitutions;
