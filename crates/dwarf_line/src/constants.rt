//! DWARF 5's constants for line number tables, under their names in the standard if they have one.

ghost use Rattle.std.specs.Prelude.{◌≡◌};
ghost use Rattle.dwarf_line.specs.Standard;

use dwarf_base::constants::{DW_FORM_string, DW_FORM_udata};

/// Appends a row of the registers to the table (sections 6.2.5.2 and 7.22).
pub const DW_LNS_copy: u8 = 0x01;
/// Advances the address by an unsigned LEB128 number, in units of minimum_instruction_length (sections 6.2.5.2 and
/// 7.22).
pub const DW_LNS_advance_pc: u8 = 0x02;
/// Advances the line by a signed LEB128 number (sections 6.2.5.2 and 7.22).
pub const DW_LNS_advance_line: u8 = 0x03;
/// Sets the file to an unsigned LEB128 number (sections 6.2.5.2 and 7.22).
pub const DW_LNS_set_file: u8 = 0x04;
/// Sets the column to an unsigned LEB128 number (sections 6.2.5.2 and 7.22).
pub const DW_LNS_set_column: u8 = 0x05;

/// The first byte of an extended opcode (section 6.2.5.3).
pub const EXTENDED_OPCODE: u8 = 0x00;
/// Ends a sequence: the address is the one after its last instruction (sections 6.2.5.3 and 7.22).
pub const DW_LNE_end_sequence: u8 = 0x01;
/// Sets the address (sections 6.2.5.3 and 7.22).
pub const DW_LNE_set_address: u8 = 0x02;

/// The path of a directory or a file (sections 6.2.4.1 and 7.22).
pub const DW_LNCT_path: u8 = 0x1;
/// The index of a file's directory (sections 6.2.4.1 and 7.22).
pub const DW_LNCT_directory_index: u8 = 0x2;

/// The header fields from minimum_instruction_length to standard_opcode_lengths (section 6.2.4).
pub static INSTRUCTION_FIELDS: [u8; 18] = [
    1, 1, 1, 0xfb, 14, 13, 0, 1, 1, 1, 1, 0, 0, 0, 1, 0, 0, 1,
];
/// The format of a directory's entry: its path as a string (sections 6.2.4 and 7.22).
pub static DIRECTORY_FORMAT: [u8; 3] = [1, DW_LNCT_path, DW_FORM_string];
/// The format of a file's entry: its path as a string, and its directory's index (sections 6.2.4 and 7.22).
pub static FILE_FORMAT: [u8; 5] = [
    2,
    DW_LNCT_path,
    DW_FORM_string,
    DW_LNCT_directory_index,
    DW_FORM_udata,
];

/// The constants are the standard's numbers.
pub fn standard_numbers()
    ensures lns_copy { DW_LNS_copy ≡ Standard.DW_LNS_copy }
    ensures lns_advance_pc { DW_LNS_advance_pc ≡ Standard.DW_LNS_advance_pc }
    ensures lns_advance_line { DW_LNS_advance_line ≡ Standard.DW_LNS_advance_line }
    ensures lns_set_file { DW_LNS_set_file ≡ Standard.DW_LNS_set_file }
    ensures lns_set_column { DW_LNS_set_column ≡ Standard.DW_LNS_set_column }
    ensures extended_opcode { EXTENDED_OPCODE ≡ Standard.EXTENDED_OPCODE }
    ensures lne_end_sequence { DW_LNE_end_sequence ≡ Standard.DW_LNE_end_sequence }
    ensures lne_set_address { DW_LNE_set_address ≡ Standard.DW_LNE_set_address }
    ensures lnct_path { DW_LNCT_path ≡ Standard.DW_LNCT_path }
    ensures lnct_directory_index { DW_LNCT_directory_index ≡ Standard.DW_LNCT_directory_index }
{}
