//! Relocatable object files of ELF64 for RISC-V, as a list of section records (System V gABI, chapter 4; RISC-V ELF
//! psABI). A file is the ELF header, the sections' bytes in order, each at a multiple of 8, and the section header
//! table. The null section and the section of the sections' names, `.shstrtab`, are made from the others and are no
//! records. Each record has one encoding, so an object determines its bytes, and the bytes determine the object.
#![tactic(auto)]

pub mod alignment;
pub mod constants;
pub mod fault;
mod header;
pub mod laws;
pub mod names;
pub mod number;
pub mod object;
pub mod read;
pub mod relocations;
pub mod size;
pub mod symbols;
pub mod write;
