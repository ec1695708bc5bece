//! The theorems that outputs of programs that were read are printable and have the right line number tables: the
//! contracts of empty functions.
#![tactic(auto)]

pub mod laws;
