//! The registers that callers and callees may share as global variables (x3 and x4), as passes see them: in front of the
//! passes of a function of the linked language each call, call in tail position and return gets an operand that says
//! that it reads them, so that no pass removes a write that another function may see; behind the passes it is taken out
//! again. The operand is no argument and no result, so the code does what it did.
#![tactic(auto)]

pub mod pass;
mod shared;
