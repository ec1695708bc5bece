//! Writes the debug sections of a program: `.debug_info`, `.debug_line`, `.debug_loclists`, `.debug_frame` and, for
//! inlined functions, `.debug_rnglists`. Each is an error if it would be too large.
#![tactic(auto)]

pub use dwarf_unit as dwarf_unit_crate;
pub use dwarf_unit::dwarf_line_table_crate as dwarf_line_table_crate;
pub use listing_text as listing_text_crate;

pub mod inlined;
pub mod sections;
