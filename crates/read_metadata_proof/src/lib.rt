//! A grammar of metadata nodes (LLVM Language Reference Manual, "Specialized Metadata Nodes"), and the law that the
//! metadata reader accepts exactly it.
#![tactic(auto)]

pub mod laws;
