//! Writer of debugging information entries: the sections `.debug_abbrev` and `.debug_info` of DWARF 5, in the 32-bit
//! format for 64-bit addresses. The entries are a tree: the compilation unit, its types and functions, and the
//! parameters and variables of each function. An entry is the code of an abbreviation and the values of its attributes;
//! the abbreviation lists these attributes and their forms. Each kind of entries is described once for both sections. A
//! variable refers to its type by the offset of the type's entry, and to its location list by the list's index. Each
//! unit has one encoding.
#![tactic(auto)]

pub mod abbreviation;
pub mod calls;
pub mod constants;
pub mod entry;
pub mod inlined;
pub mod inlined_write;
pub mod kind;
pub mod size;
pub mod unit;
pub mod write;
