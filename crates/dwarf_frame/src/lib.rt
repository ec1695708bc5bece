//! Writer and reader of call frame information: the section `.debug_frame` of DWARF 5, in the 32-bit format for 64-bit
//! addresses. For each instruction it has rules of how to find the caller's frame: the offset of the canonical frame
//! address (CFA) from the stack pointer x2, and where the registers are that the function has saved. The section is a
//! common information entry (CIE), and a frame description entry (FDE) for each function. An FDE has the address range
//! of the code, and call frame instructions for its rows: an advance of the address, and what changes there. Each table
//! has one encoding, so the table determines the bytes, and the bytes determine the table.
#![tactic(auto)]

pub mod constants;
pub mod fault;
pub mod read;
pub mod rows;
pub mod size;
pub mod table;
pub mod write;
