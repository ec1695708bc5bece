//! The numbers of relocations by absolute addresses in code (RISC-V ELF psABI, "Relocations"), under their names there.

ghost use Rattle.std.specs.Prelude.{◌≡◌};
ghost use Rattle.elf_relocation.specs.Standard;

/// The relocation of the upper half of an address, in a word of the U format.
pub const R_RISCV_HI20: u32 = 26;
/// The relocation of the lower half of an address, in a word of the I format.
pub const R_RISCV_LO12_I: u32 = 27;
/// The relocation of the lower half of an address, in a word of the S format.
pub const R_RISCV_LO12_S: u32 = 28;

/// The constants are the standard's numbers.
pub fn standard_numbers()
    ensures r_riscv_hi20 { R_RISCV_HI20 ≡ Standard.R_RISCV_HI20 }
    ensures r_riscv_lo12_i { R_RISCV_LO12_I ≡ Standard.R_RISCV_LO12_I }
    ensures r_riscv_lo12_s { R_RISCV_LO12_S ≡ Standard.R_RISCV_LO12_S }
{}
