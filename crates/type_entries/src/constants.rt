//! DWARF 5's constants for the entries of types, under the standard's names.

ghost use Rattle.std.specs.Prelude.{◌≡◌};
ghost use Rattle.type_entries.specs.Standard;

pub const DW_TAG_array_type: u16 = 0x01;

pub const DW_TAG_enumeration_type: u16 = 0x04;

pub const DW_TAG_member: u16 = 0x0d;

pub const DW_TAG_subroutine_type: u16 = 0x15;

pub const DW_TAG_typedef: u16 = 0x16;

pub const DW_TAG_unspecified_parameters: u16 = 0x18;

pub const DW_TAG_subrange_type: u16 = 0x21;

pub const DW_TAG_enumerator: u16 = 0x28;

pub const DW_AT_bit_size: u16 = 0x0d;

pub const DW_AT_const_value: u16 = 0x1c;

pub const DW_AT_prototyped: u16 = 0x27;

pub const DW_AT_count: u16 = 0x37;

pub const DW_AT_data_member_location: u16 = 0x38;

pub const DW_AT_declaration: u16 = 0x3c;

pub const DW_AT_data_bit_offset: u16 = 0x6b;

/// The constants are the standard's numbers.
pub fn standard_numbers()
    ensures array_type { DW_TAG_array_type ≡ Standard.DW_TAG_array_type }
    ensures enumeration_type { DW_TAG_enumeration_type ≡ Standard.DW_TAG_enumeration_type }
    ensures member { DW_TAG_member ≡ Standard.DW_TAG_member }
    ensures subroutine_type { DW_TAG_subroutine_type ≡ Standard.DW_TAG_subroutine_type }
    ensures typedef { DW_TAG_typedef ≡ Standard.DW_TAG_typedef }
    ensures unspecified_parameters { DW_TAG_unspecified_parameters ≡ Standard.DW_TAG_unspecified_parameters }
    ensures subrange_type { DW_TAG_subrange_type ≡ Standard.DW_TAG_subrange_type }
    ensures enumerator { DW_TAG_enumerator ≡ Standard.DW_TAG_enumerator }
    ensures bit_size { DW_AT_bit_size ≡ Standard.DW_AT_bit_size }
    ensures const_value { DW_AT_const_value ≡ Standard.DW_AT_const_value }
    ensures prototyped { DW_AT_prototyped ≡ Standard.DW_AT_prototyped }
    ensures count { DW_AT_count ≡ Standard.DW_AT_count }
    ensures data_member_location { DW_AT_data_member_location ≡ Standard.DW_AT_data_member_location }
    ensures declaration { DW_AT_declaration ≡ Standard.DW_AT_declaration }
    ensures data_bit_offset { DW_AT_data_bit_offset ≡ Standard.DW_AT_data_bit_offset }
{}
