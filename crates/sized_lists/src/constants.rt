//! DWARF 5's numbers for the locations of variables with sizes, besides those of other location lists.

ghost use Rattle.std.specs.Prelude.{◌≡◌};
ghost use Rattle.sized_lists.specs.Standard;

/// The operations before it locate this number of the variable's bits, from a bit offset on; without operations these
/// bits have no location (sections 2.6.1.2 and 7.7.1).
pub const DW_OP_bit_piece: u8 = 0x9d;

/// The constant is the standard's number.
pub fn standard_numbers()
    ensures { DW_OP_bit_piece ≡ Standard.DW_OP_bit_piece }
{}
