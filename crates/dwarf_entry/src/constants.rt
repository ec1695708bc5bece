//! DWARF 5's constants for forms that a unit without types and scopes has no use for, under the standard's names.

ghost use Rattle.std.specs.Prelude.{◌≡◌};
ghost use Rattle.dwarf_entry.specs.Standard;

/// A flag of one byte.
pub const DW_FORM_flag: u8 = 0x0c;
/// A number in signed LEB128.
pub const DW_FORM_sdata: u8 = 0x0d;
/// A DWARF expression behind its length in unsigned LEB128.
pub const DW_FORM_exprloc: u8 = 0x18;
/// A flag that is set, in no byte.
pub const DW_FORM_flag_present: u8 = 0x19;

/// The constants are the standard's numbers.
pub fn standard_numbers()
    ensures flag { DW_FORM_flag ≡ Standard.DW_FORM_flag }
    ensures sdata { DW_FORM_sdata ≡ Standard.DW_FORM_sdata }
    ensures exprloc { DW_FORM_exprloc ≡ Standard.DW_FORM_exprloc }
    ensures flag_present { DW_FORM_flag_present ≡ Standard.DW_FORM_flag_present }
{}
