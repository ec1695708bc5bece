//! DWARF 5's constants for the entries of functions and variables, beside those of dwarf_info and type_entries, under
//! the standard's names.

ghost use Rattle.std.specs.Prelude.{◌≡◌};
ghost use Rattle.typed_unit.specs.Standard;

pub const DW_TAG_lexical_block: u16 = 0x0b;

pub const DW_AT_producer: u16 = 0x25;

pub const DW_AT_decl_file: u16 = 0x3a;

pub const DW_AT_decl_line: u16 = 0x3b;

pub const DW_AT_external: u16 = 0x3f;

pub const DW_AT_frame_base: u16 = 0x40;

pub const DW_AT_linkage_name: u16 = 0x6e;

pub const DW_OP_call_frame_cfa: u8 = 0x9c;

/// The constants are the standard's numbers.
pub fn standard_numbers()
    ensures lexical_block { DW_TAG_lexical_block ≡ Standard.DW_TAG_lexical_block }
    ensures producer { DW_AT_producer ≡ Standard.DW_AT_producer }
    ensures decl_file { DW_AT_decl_file ≡ Standard.DW_AT_decl_file }
    ensures decl_line { DW_AT_decl_line ≡ Standard.DW_AT_decl_line }
    ensures external { DW_AT_external ≡ Standard.DW_AT_external }
    ensures frame_base { DW_AT_frame_base ≡ Standard.DW_AT_frame_base }
    ensures linkage_name { DW_AT_linkage_name ≡ Standard.DW_AT_linkage_name }
    ensures call_frame_cfa { DW_OP_call_frame_cfa ≡ Standard.DW_OP_call_frame_cfa }
{}
