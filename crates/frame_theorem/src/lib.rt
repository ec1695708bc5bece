//! What call frame information finds: at each line that the machine comes to, a debugger that applies the rules of
//! `.debug_frame` finds the values that the stack pointer, the return address and the callee-saved registers had at the
//! function's start. And what location lists say of a suspended frame: what a callee keeps holds the source's values.
#![tactic(auto)]

pub mod laws;
