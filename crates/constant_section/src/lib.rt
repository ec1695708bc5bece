//! The section of constants of an object, `.rodata`: the constants of the functions' pools in their order, each at the
//! next multiple of its alignment. (System V gABI, chapter 4, "Special Sections".)
#![tactic(auto)]

pub mod laws;
pub mod section;
