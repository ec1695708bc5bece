//! The content of the debug sections of an object that a linker places, as pieces: the bytes that stay, and the fields
//! for addresses of code and offsets in other sections.
#![tactic(auto)]

pub mod entries;
pub mod fields;
pub mod frames;
pub mod lines;
