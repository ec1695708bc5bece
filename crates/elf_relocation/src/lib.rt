//! Relocations of RISC-V as they are applied: what each kind writes in its field, by the address of its symbol, its
//! addend and the address of the relocated bytes (RISC-V ELF psABI, "Relocations"). What `elf_object` has as numbers
//! of a table has its meaning here.
#![tactic(auto)]

pub mod apply;
pub mod constants;
pub mod field;
pub mod kind;
pub mod laws;
