//! DWARF 5's numbers for range lists, besides those that all sections share.

ghost use Rattle.std.specs.Prelude.{◌≡◌};
ghost use Rattle.dwarf_rnglists.specs.Standard;

/// The entry that ends a list (sections 2.17.3 and 7.25).
pub const DW_RLE_end_of_list: u8 = 0x00;
/// An entry with the two ends of its range as offsets from the base address (sections 2.17.3 and 7.25).
pub const DW_RLE_offset_pair: u8 = 0x04;

/// The constants are the standard's numbers.
pub fn standard_numbers()
    ensures end_of_list { DW_RLE_end_of_list ≡ Standard.DW_RLE_end_of_list }
    ensures offset_pair { DW_RLE_offset_pair ≡ Standard.DW_RLE_offset_pair }
{}
