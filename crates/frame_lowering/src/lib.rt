//! Prologue/epilogue insertion and frame layout, by the rule of `frame_rule`. First it computes the layout: the offsets
//! of slots and saved registers, and the frame's size. Then it copies the function, replaces slots by their offsets
//! from x2, and adds the prologue before the first block and the epilogue before each return.
#![tactic(auto)]

mod added;
mod addresses;
mod blocks;
mod frame;
pub mod lower;
pub mod physical;
mod places;
mod rename;
mod saving;
mod sizes;
mod slots;
