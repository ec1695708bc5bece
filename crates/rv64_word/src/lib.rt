//! Encoder and decoder of RV64I machine words: a machine operation is encoded by the table of its format, and
//! decoded by the same table.
#![tactic(auto)]

pub mod format;
pub mod linked;
pub mod lowering;
pub mod machine_op;
pub mod opcodes;
pub mod word_op;
