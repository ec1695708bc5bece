//! Location lists that are true in every frame. A debugger looks a suspended frame up at its return address less one:
//! in the second word of a call of a named function, and at the last byte of a call by a register. There a list gives the
//! first place of those that the callee keeps: a constant, a register that isn't caller-saved, or a slot that isn't passed.
//! The machine never stands there. At all other bytes the lists are those of `location_ranges`.
#![tactic(auto)]

pub mod calls;
pub mod places;
pub mod ranges;
