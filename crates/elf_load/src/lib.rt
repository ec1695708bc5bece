//! Machine code as it lies in memory: at an address, with its calls relocated to the addresses of the functions that
//! they call (RISC-V ELF psABI, "Relocations"). The two words of a call site become AUIPC and JALR.
#![tactic(auto)]

pub mod load;
mod relocate;
mod symbols;
mod words;
