//! The relocations of instructions that have a half of an address, and the words that they make (RISC-V ELF psABI,
//! "Absolute Addresses").
#![tactic(auto)]

pub mod code;
pub mod laws;
