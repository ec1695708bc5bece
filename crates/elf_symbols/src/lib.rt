//! Readers of the symbols and the relocations in relocatable object files of ELF64 (System V gABI, chapter 4). They
//! read the bytes that `elf_object` writes, and of others they tell the first wrong field.
#![tactic(auto)]

mod entry;
pub mod fault;
pub mod laws;
pub mod relocations;
pub mod symbols;
