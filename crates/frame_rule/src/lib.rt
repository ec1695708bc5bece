//! The rule of prologue/epilogue insertion and frame layout. A function's frame lies below the stack pointer at entry:
//! its spill slots, the save slots of the return address and the callee-saved registers that it sets, and its stack
//! objects. A prologue allocates the frame and saves the registers, and before each return an epilogue restores them
//! and deallocates the frame. The rest of the function is unchanged, debug items included; slots are named by their
//! offsets. The rule is one equation on plain functions, in `specs/Rule.antt`.
#![tactic(auto)]

pub mod laws;
