//! The content of a section that a linker places: bytes, and fields that are relocated. A writer makes pieces, and
//! never an offset; that the relocated bytes are the pieces with their fields filled is proved here once for all
//! sections.
#![tactic(auto)]

pub mod content;
pub mod laws;
pub mod piece;
