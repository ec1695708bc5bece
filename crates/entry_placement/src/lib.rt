//! Where a linker places a tree of entries: the content of its section and the relocations of it, and what the section
//! is after them, the same tree with each address moved by where code lies and each section offset by where its
//! section does.
#![tactic(auto)]

pub use dwarf_entry as dwarf_entry_crate;

pub mod content;
pub mod laws;
