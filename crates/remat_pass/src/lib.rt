//! The rematerialization pass for constants. Along a block it knows which registers and spill slots have the value of a
//! constant definition. A copy of such a register and a load of such a slot become a definition of the constant, so
//! that the copy's source may become dead. A value is known until its place is set, until a call for caller-saved
//! registers, and until the block's end: no value is kept over a join. Debug items, numbers and origins are unchanged.
#![tactic(auto)]

pub mod constant;
mod known;
pub mod remat;
