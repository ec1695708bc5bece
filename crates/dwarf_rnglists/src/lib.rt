//! Writer of range lists: the section `.debug_rnglists` of DWARF 5, in the 32-bit format for 64-bit addresses. A list
//! has the ranges of addresses of an entry whose code isn't contiguous. The section is a header, the offset of each
//! list, and the lists one after the other, as in `.debug_loclists`. A list is entries and an end-of-list entry, and an
//! entry is a range. Lists determine the bytes, and the bytes determine the lists.
#![tactic(auto)]

pub mod constants;
pub mod laws;
pub mod range;
pub mod section;
