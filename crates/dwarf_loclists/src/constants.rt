//! DWARF 5's numbers for location lists, besides those that all sections share.

ghost use Rattle.std.specs.Prelude.{◌≡◌};
ghost use Rattle.dwarf_loclists.specs.Standard;

/// The entry that ends a list (sections 2.6.2 and 7.7.3).
pub const DW_LLE_end_of_list: u8 = 0x00;
/// An entry with the two ends of its range as offsets from the base address (sections 2.6.2 and 7.7.3).
pub const DW_LLE_offset_pair: u8 = 0x04;

/// Pushes a signed LEB128 number (sections 2.5.1.1 and 7.7.1).
pub const DW_OP_consts: u8 = 0x11;
/// The value is in register 0; the operation for register n is this plus n (sections 2.6.1.1.3 and 7.7.1). The DWARF
/// number of xN is N (RISC-V ELF psABI, "DWARF Register Numbers").
pub const DW_OP_reg0: u8 = 0x50;
/// The address is that in register 2, RISC-V's stack pointer, plus a signed LEB128 number (sections 2.5.1.2 and 7.7.1).
pub const DW_OP_breg2: u8 = 0x72;
/// The operations before it locate this number of the variable's bytes; without operations these bytes have no location
/// (sections 2.6.1.2 and 7.7.1).
pub const DW_OP_piece: u8 = 0x93;
/// The value is the one on the stack, and has no address (sections 2.6.1.1.4 and 7.7.1).
pub const DW_OP_stack_value: u8 = 0x9f;

/// The constants are the standard's numbers.
pub fn standard_numbers()
    ensures end_of_list { DW_LLE_end_of_list ≡ Standard.DW_LLE_end_of_list }
    ensures offset_pair { DW_LLE_offset_pair ≡ Standard.DW_LLE_offset_pair }
    ensures consts { DW_OP_consts ≡ Standard.DW_OP_consts }
    ensures reg0 { DW_OP_reg0 ≡ Standard.DW_OP_reg0 }
    ensures breg2 { DW_OP_breg2 ≡ Standard.DW_OP_breg2 }
    ensures piece { DW_OP_piece ≡ Standard.DW_OP_piece }
    ensures stack_value { DW_OP_stack_value ≡ Standard.DW_OP_stack_value }
{}
