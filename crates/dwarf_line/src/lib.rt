//! Writer and reader of line number tables: the section `.debug_line` of DWARF 5, in the 32-bit format for 64-bit
//! addresses. The table has the file, line and column of each range of instruction addresses. The section is a header
//! with tables of directories and files, and a line number program: opcodes of a state machine, whose registers are a
//! row of the table. A sequence begins with its address; each row sets the registers that change and is copied, and the
//! sequence closes with a last advance and an end. Special opcodes aren't written. Each table has one encoding, so the
//! table determines the bytes, and the reader reads exactly what was written.
#![tactic(auto)]

pub mod constants;
pub mod fault;
pub mod read;
pub mod row;
pub mod size;
pub mod table;
pub mod write;
