//! DWARF 5's constants for call frame information, under their names in the standard if they have one.

ghost use Rattle.std.specs.Prelude.{◌≡◌};
ghost use Rattle.dwarf_frame.specs.Standard;

use dwarf_base::constants::{ADDRESS_SIZE, SEGMENT_SELECTOR_SIZE};

/// The CIE_id of a common information entry (sections 6.4.1 and 7.24).
pub const CIE_ID: u32 = 0xffff_ffff;
/// The version of call frame information (section 6.4.1 and 7.24).
pub const VERSION: u8 = 4;
/// The unit of address advances: 4 bytes, the size of an instruction (section 6.4.1).
pub const CODE_ALIGNMENT_FACTOR: u8 = 4;
/// The unit of offsets from the CFA: -8 bytes, as a signed LEB128 number (section 6.4.1).
pub const DATA_ALIGNMENT_FACTOR: u8 = 0x78;
/// The register with the return address: x1 (section 6.4.1). The DWARF number of xN is N (RISC-V ELF psABI, "DWARF
/// Register Numbers").
pub const RETURN_ADDRESS_REGISTER: u8 = 1;
/// The register that the CFA is an offset from: x2, the stack pointer.
pub const STACK_POINTER: u8 = 2;

/// Advances the address; the operand is in the low six bits (sections 6.4.2.1 and 7.24).
pub const DW_CFA_advance_loc: u8 = 0x40;
/// A register's value is at an offset from the CFA; the register is in the low six bits (sections 6.4.2.3 and 7.24).
pub const DW_CFA_offset: u8 = 0x80;
/// A register has its rule of the CIE again; the register is in the low six bits (sections 6.4.2.3 and 7.24).
pub const DW_CFA_restore: u8 = 0xc0;
/// Does nothing: padding (sections 6.4.2.5 and 7.24).
pub const DW_CFA_nop: u8 = 0x00;
/// A register's value can't be found; the operand is the register (sections 6.4.2.3 and 7.24).
pub const DW_CFA_undefined: u8 = 0x07;
/// Advances the address by a number of four bytes (sections 6.4.2.1 and 7.24).
pub const DW_CFA_advance_loc4: u8 = 0x04;
/// The CFA is a register plus an offset (sections 6.4.2.2 and 7.24).
pub const DW_CFA_def_cfa: u8 = 0x0c;
/// The CFA has another offset from its register (sections 6.4.2.2 and 7.24).
pub const DW_CFA_def_cfa_offset: u8 = 0x0e;

/// The offset of the common information entry, in the CIE_pointer of each frame description entry (section 6.4.1).
pub const COMMON_POINTER: u32 = 0;
/// The fields of the common information entry after the CIE_id: the version, an empty augmentation, sizes, factors, the
/// register of the return address, and the first of the initial instructions (section 6.4.1).
pub static COMMON_FRONT: [u8; 10] = [
    VERSION,
    0,
    ADDRESS_SIZE,
    SEGMENT_SELECTOR_SIZE,
    CODE_ALIGNMENT_FACTOR,
    DATA_ALIGNMENT_FACTOR,
    RETURN_ADDRESS_REGISTER,
    DW_CFA_def_cfa,
    STACK_POINTER,
    0,
];

/// The padding of an entry is fewer bytes than these.
pub static PADDING: [u8; 8] = [DW_CFA_nop; 8];

/// The constants are the standard's numbers.
pub fn standard_numbers()
    ensures cie_id { CIE_ID ≡ Standard.CIE_ID }
    ensures version { VERSION ≡ Standard.VERSION }
    ensures code_alignment_factor { CODE_ALIGNMENT_FACTOR ≡ Standard.CODE_ALIGNMENT_FACTOR }
    ensures data_alignment_factor { DATA_ALIGNMENT_FACTOR ≡ Standard.DATA_ALIGNMENT_FACTOR }
    ensures return_address_register { RETURN_ADDRESS_REGISTER ≡ Standard.RETURN_ADDRESS_REGISTER }
    ensures stack_pointer { STACK_POINTER ≡ Standard.STACK_POINTER }
    ensures advance_loc { DW_CFA_advance_loc ≡ Standard.DW_CFA_advance_loc }
    ensures offset { DW_CFA_offset ≡ Standard.DW_CFA_offset }
    ensures restore { DW_CFA_restore ≡ Standard.DW_CFA_restore }
    ensures nop { DW_CFA_nop ≡ Standard.DW_CFA_nop }
    ensures undefined { DW_CFA_undefined ≡ Standard.DW_CFA_undefined }
    ensures advance_loc4 { DW_CFA_advance_loc4 ≡ Standard.DW_CFA_advance_loc4 }
    ensures def_cfa { DW_CFA_def_cfa ≡ Standard.DW_CFA_def_cfa }
    ensures def_cfa_offset { DW_CFA_def_cfa_offset ≡ Standard.DW_CFA_def_cfa_offset }
{}
