//! The constants of DWARF 5 that several sections share, under their names in the standard if they have one.

ghost use Rattle.std.specs.Prelude.{◌≡◌};
ghost use Rattle.dwarf_base.specs.Standard;

/// The version of each section with a version field (sections 7.5.1.1, 7.24, 7.28 and 7.29).
pub const VERSION: u16 = 5;
/// The size of an address in bytes.
pub const ADDRESS_SIZE: u8 = 8;
/// The size of a segment selector: there are none.
pub const SEGMENT_SELECTOR_SIZE: u8 = 0;

/// An attribute's value is a string that ends with a zero byte (sections 7.5.5 and 7.5.6).
pub const DW_FORM_string: u8 = 0x08;
/// An attribute's value is an unsigned LEB128 number (sections 7.5.5 and 7.5.6).
pub const DW_FORM_udata: u8 = 0x0f;

/// The constants are the standard's numbers.
pub fn standard_numbers()
    ensures version { VERSION ≡ Standard.VERSION }
    ensures address_size { ADDRESS_SIZE ≡ Standard.ADDRESS_SIZE }
    ensures segment_selector_size { SEGMENT_SELECTOR_SIZE ≡ Standard.SEGMENT_SELECTOR_SIZE }
    ensures form_string { DW_FORM_string ≡ Standard.DW_FORM_string }
    ensures form_udata { DW_FORM_udata ≡ Standard.DW_FORM_udata }
{}
