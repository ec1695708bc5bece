//! Writer and reader of location lists: the section `.debug_loclists` of DWARF 5, in the 32-bit format for 64-bit
//! addresses. A variable's list has its location for ranges of addresses. The section is a header, the offset of each
//! list, and the lists one after the other. A list is entries and an end-of-list entry. An entry is a range and a DWARF
//! expression for the location: a place, or pieces of the variable at places. Each number, entry and list has one
//! encoding, so lists determine the bytes, and the bytes determine the lists.
#![tactic(auto)]

pub mod constants;
pub mod entry;
pub mod fault;
mod header;
pub mod laws;
mod list_reader;
pub mod location;
pub mod range;
pub mod reader;
pub mod section;
mod split;
