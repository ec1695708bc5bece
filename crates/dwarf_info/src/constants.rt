//! DWARF 5's constants for entries and their abbreviations, under the standard's names.

ghost use Rattle.std.specs.Prelude.{◌≡◌};
ghost use Rattle.dwarf_info.specs.Standard;

/// A parameter of a function (DWARF 5 section 7.5.3).
pub const DW_TAG_formal_parameter: u8 = 0x05;
/// A compilation unit (section 7.5.3).
pub const DW_TAG_compile_unit: u8 = 0x11;
/// The code of a function that was inlined at a call (section 7.5.3).
pub const DW_TAG_inlined_subroutine: u8 = 0x1d;
/// A base type of the language (section 7.5.3).
pub const DW_TAG_base_type: u8 = 0x24;
/// A function (section 7.5.3).
pub const DW_TAG_subprogram: u8 = 0x2e;
/// A variable (section 7.5.3).
pub const DW_TAG_variable: u8 = 0x34;

/// The entry has no children (section 7.5.3).
pub const DW_CHILDREN_no: u8 = 0x00;
/// The entry has children, and a zero byte ends them (section 7.5.3).
pub const DW_CHILDREN_yes: u8 = 0x01;

/// The location of the value (section 7.5.4).
pub const DW_AT_location: u8 = 0x02;
/// The name in the source (section 7.5.4).
pub const DW_AT_name: u8 = 0x03;
/// The size of the type in bytes (section 7.5.4).
pub const DW_AT_byte_size: u8 = 0x0b;
/// The offset of the unit's line number table (section 7.5.4).
pub const DW_AT_stmt_list: u8 = 0x10;
/// The first address (section 7.5.4).
pub const DW_AT_low_pc: u8 = 0x11;
/// The length of the code in bytes (section 7.5.4).
pub const DW_AT_high_pc: u8 = 0x12;
/// The language of the source (section 7.5.4).
pub const DW_AT_language: u8 = 0x13;
/// The directory of the compilation (section 7.5.4).
pub const DW_AT_comp_dir: u8 = 0x1b;
/// Whether the function was inlined (section 7.5.4).
pub const DW_AT_inline: u8 = 0x20;
/// The abstract entry of what the entry is an instance of (section 7.5.4).
pub const DW_AT_abstract_origin: u8 = 0x31;
/// The encoding of the type's values (section 7.5.4).
pub const DW_AT_encoding: u8 = 0x3e;
/// The type (section 7.5.4).
pub const DW_AT_type: u8 = 0x49;
/// The addresses of the code, as a range list (section 7.5.4).
pub const DW_AT_ranges: u8 = 0x55;
/// The column of the call (section 7.5.4).
pub const DW_AT_call_column: u8 = 0x57;
/// The file of the call (section 7.5.4).
pub const DW_AT_call_file: u8 = 0x58;
/// The line of the call (section 7.5.4).
pub const DW_AT_call_line: u8 = 0x59;
/// The offset that the unit's range lists count from (section 7.5.4).
pub const DW_AT_rnglists_base: u8 = 0x74;
/// The offset that the unit's location lists count from (section 7.5.4).
pub const DW_AT_loclists_base: u8 = 0x8c;

/// An address (sections 7.5.5 and 7.5.6).
pub const DW_FORM_addr: u8 = 0x01;
/// A number of two bytes (sections 7.5.5 and 7.5.6).
pub const DW_FORM_data2: u8 = 0x05;
/// A number of four bytes (sections 7.5.5 and 7.5.6).
pub const DW_FORM_data4: u8 = 0x06;
/// A number of one byte (sections 7.5.5 and 7.5.6).
pub const DW_FORM_data1: u8 = 0x0b;
/// An entry of the unit, by its offset of four bytes from the unit's first byte (sections 7.5.5 and 7.5.6).
pub const DW_FORM_ref4: u8 = 0x13;
/// An offset of four bytes in another section (sections 7.5.5 and 7.5.6).
pub const DW_FORM_sec_offset: u8 = 0x17;
/// A location list, by its index (sections 7.5.5 and 7.5.6).
pub const DW_FORM_loclistx: u8 = 0x22;
/// A range list, by its index (sections 7.5.5 and 7.5.6).
pub const DW_FORM_rnglistx: u8 = 0x23;

/// The function was inlined, and not declared so (section 7.21).
pub const DW_INL_inlined: u8 = 0x01;
/// A compilation unit (section 7.5.1).
pub const DW_UT_compile: u8 = 0x01;
/// C, as of 1999 (section 7.12).
pub const DW_LANG_C99: u16 = 0x000c;
/// The offset in `.debug_loclists` after its header (section 7.29).
pub const LOCLISTS_BASE: u32 = 12;
/// The offset in `.debug_rnglists` after its header (section 7.28).
pub const RNGLISTS_BASE: u32 = 12;

/// The constants are the standard's numbers.
pub fn standard_numbers()
    ensures tag_formal_parameter { DW_TAG_formal_parameter ≡ Standard.DW_TAG_formal_parameter }
    ensures tag_compile_unit { DW_TAG_compile_unit ≡ Standard.DW_TAG_compile_unit }
    ensures tag_inlined_subroutine { DW_TAG_inlined_subroutine ≡ Standard.DW_TAG_inlined_subroutine }
    ensures tag_base_type { DW_TAG_base_type ≡ Standard.DW_TAG_base_type }
    ensures tag_subprogram { DW_TAG_subprogram ≡ Standard.DW_TAG_subprogram }
    ensures tag_variable { DW_TAG_variable ≡ Standard.DW_TAG_variable }
    ensures children_no { DW_CHILDREN_no ≡ Standard.DW_CHILDREN_no }
    ensures children_yes { DW_CHILDREN_yes ≡ Standard.DW_CHILDREN_yes }
    ensures at_location { DW_AT_location ≡ Standard.DW_AT_location }
    ensures at_name { DW_AT_name ≡ Standard.DW_AT_name }
    ensures at_byte_size { DW_AT_byte_size ≡ Standard.DW_AT_byte_size }
    ensures at_stmt_list { DW_AT_stmt_list ≡ Standard.DW_AT_stmt_list }
    ensures at_low_pc { DW_AT_low_pc ≡ Standard.DW_AT_low_pc }
    ensures at_high_pc { DW_AT_high_pc ≡ Standard.DW_AT_high_pc }
    ensures at_language { DW_AT_language ≡ Standard.DW_AT_language }
    ensures at_comp_dir { DW_AT_comp_dir ≡ Standard.DW_AT_comp_dir }
    ensures at_inline { DW_AT_inline ≡ Standard.DW_AT_inline }
    ensures at_abstract_origin { DW_AT_abstract_origin ≡ Standard.DW_AT_abstract_origin }
    ensures at_encoding { DW_AT_encoding ≡ Standard.DW_AT_encoding }
    ensures at_type { DW_AT_type ≡ Standard.DW_AT_type }
    ensures at_ranges { DW_AT_ranges ≡ Standard.DW_AT_ranges }
    ensures at_call_column { DW_AT_call_column ≡ Standard.DW_AT_call_column }
    ensures at_call_file { DW_AT_call_file ≡ Standard.DW_AT_call_file }
    ensures at_call_line { DW_AT_call_line ≡ Standard.DW_AT_call_line }
    ensures at_rnglists_base { DW_AT_rnglists_base ≡ Standard.DW_AT_rnglists_base }
    ensures at_loclists_base { DW_AT_loclists_base ≡ Standard.DW_AT_loclists_base }
    ensures form_addr { DW_FORM_addr ≡ Standard.DW_FORM_addr }
    ensures form_data2 { DW_FORM_data2 ≡ Standard.DW_FORM_data2 }
    ensures form_data4 { DW_FORM_data4 ≡ Standard.DW_FORM_data4 }
    ensures form_data1 { DW_FORM_data1 ≡ Standard.DW_FORM_data1 }
    ensures form_ref4 { DW_FORM_ref4 ≡ Standard.DW_FORM_ref4 }
    ensures form_sec_offset { DW_FORM_sec_offset ≡ Standard.DW_FORM_sec_offset }
    ensures form_loclistx { DW_FORM_loclistx ≡ Standard.DW_FORM_loclistx }
    ensures form_rnglistx { DW_FORM_rnglistx ≡ Standard.DW_FORM_rnglistx }
    ensures inl_inlined { DW_INL_inlined ≡ Standard.DW_INL_inlined }
    ensures ut_compile { DW_UT_compile ≡ Standard.DW_UT_compile }
    ensures lang_c99 { DW_LANG_C99 ≡ Standard.DW_LANG_C99 }
    ensures loclists_base { LOCLISTS_BASE ≡ Standard.LOCLISTS_BASE }
    ensures rnglists_base { RNGLISTS_BASE ≡ Standard.RNGLISTS_BASE }
{}
