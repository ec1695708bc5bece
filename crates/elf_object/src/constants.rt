//! The constants of ELF object files (System V gABI, chapter 4, and RISC-V ELF psABI), under their names there.

ghost use Rattle.std.specs.Prelude.{◌≡◌};
ghost use Rattle.elf_object.specs.Standard;

/// The magic number: the bytes EI_MAG0 to EI_MAG3 of e_ident.
pub const ELFMAG: [u8; 4] = [0x7f, 0x45, 0x4c, 0x46];
/// The class of files with 64-bit addresses.
pub const ELFCLASS64: u8 = 2;
/// Little-endian numbers.
pub const ELFDATA2LSB: u8 = 1;
/// The version of the format.
pub const EV_CURRENT: u8 = 1;
/// No extension by an operating system.
pub const ELFOSABI_NONE: u8 = 0;
/// A relocatable file.
pub const ET_REL: u16 = 1;
/// RISC-V.
pub const EM_RISCV: u16 = 243;

/// The type of a section with the program's own content.
pub const SHT_PROGBITS: u32 = 1;
/// The type of a symbol table.
pub const SHT_SYMTAB: u32 = 2;
/// The type of a string table.
pub const SHT_STRTAB: u32 = 3;
/// The type of relocations with addends.
pub const SHT_RELA: u32 = 4;
/// The section takes memory when the program runs.
pub const SHF_ALLOC: u64 = 2;
/// The section has instructions.
pub const SHF_EXECINSTR: u64 = 4;
/// The field sh_info is a section's index.
pub const SHF_INFO_LINK: u64 = 0x40;
/// The section index of an undefined symbol.
pub const SHN_UNDEF: u16 = 0;
/// The first reserved section index: a file whose header counts its sections has fewer.
pub const SHN_LORESERVE: u16 = 0xff00;

/// The binding of a symbol that is local to its file.
pub const STB_LOCAL: u8 = 0;
/// The binding of a global symbol.
pub const STB_GLOBAL: u8 = 1;
/// The binding of a symbol that a global one overrides.
pub const STB_WEAK: u8 = 2;
/// The type of a symbol is unspecified.
pub const STT_NOTYPE: u8 = 0;
/// The symbol is a function.
pub const STT_FUNC: u8 = 2;
/// The symbol is a section.
pub const STT_SECTION: u8 = 3;
/// The symbol's visibility is that of its binding.
pub const STV_DEFAULT: u8 = 0;

/// The relocation of four bytes by the symbol's address and the addend (psABI, "Relocations").
pub const R_RISCV_32: u32 = 1;
/// The relocation of eight bytes by the symbol's address and the addend.
pub const R_RISCV_64: u32 = 2;
/// The relocation of a call by AUIPC and JALR.
pub const R_RISCV_CALL_PLT: u32 = 19;
/// Code passes floating-point arguments in double-precision registers (psABI, "File Header").
pub const EF_RISCV_FLOAT_ABI_DOUBLE: u32 = 4;

/// The bytes of the ELF header (Elf64_Ehdr).
pub const EHDR_SIZE: u16 = 64;
/// The bytes of a section header (Elf64_Shdr).
pub const SHDR_SIZE: u16 = 64;
/// The bytes of a symbol (Elf64_Sym).
pub const SYM_SIZE: u64 = 24;
/// The bytes of a relocation (Elf64_Rela).
pub const RELA_SIZE: u64 = 24;

/// The constants of files and sections are the standard's numbers.
pub fn standard_numbers()
    ensures elfmag { ELFMAG ≡ Standard.ELFMAG }
    ensures elfclass64 { ELFCLASS64 ≡ Standard.ELFCLASS64 }
    ensures elfdata2lsb { ELFDATA2LSB ≡ Standard.ELFDATA2LSB }
    ensures ev_current { EV_CURRENT ≡ Standard.EV_CURRENT }
    ensures elfosabi_none { ELFOSABI_NONE ≡ Standard.ELFOSABI_NONE }
    ensures et_rel { ET_REL ≡ Standard.ET_REL }
    ensures em_riscv { EM_RISCV ≡ Standard.EM_RISCV }
    ensures sht_progbits { SHT_PROGBITS ≡ Standard.SHT_PROGBITS }
    ensures sht_symtab { SHT_SYMTAB ≡ Standard.SHT_SYMTAB }
    ensures sht_strtab { SHT_STRTAB ≡ Standard.SHT_STRTAB }
    ensures sht_rela { SHT_RELA ≡ Standard.SHT_RELA }
    ensures shf_alloc { SHF_ALLOC ≡ Standard.SHF_ALLOC }
    ensures shf_execinstr { SHF_EXECINSTR ≡ Standard.SHF_EXECINSTR }
    ensures shf_info_link { SHF_INFO_LINK ≡ Standard.SHF_INFO_LINK }
    ensures shn_undef { SHN_UNDEF ≡ Standard.SHN_UNDEF }
    ensures shn_loreserve { SHN_LORESERVE ≡ Standard.SHN_LORESERVE }
    ensures ehdr_size { EHDR_SIZE ≡ Standard.EHDR_SIZE }
    ensures shdr_size { SHDR_SIZE ≡ Standard.SHDR_SIZE }
{}

/// The constants of symbols and relocations are the standard's numbers.
pub fn standard_symbol_numbers()
    ensures stb_local { STB_LOCAL ≡ Standard.STB_LOCAL }
    ensures stb_global { STB_GLOBAL ≡ Standard.STB_GLOBAL }
    ensures stb_weak { STB_WEAK ≡ Standard.STB_WEAK }
    ensures stt_notype { STT_NOTYPE ≡ Standard.STT_NOTYPE }
    ensures stt_func { STT_FUNC ≡ Standard.STT_FUNC }
    ensures stt_section { STT_SECTION ≡ Standard.STT_SECTION }
    ensures stv_default { STV_DEFAULT ≡ Standard.STV_DEFAULT }
    ensures r_riscv_32 { R_RISCV_32 ≡ Standard.R_RISCV_32 }
    ensures r_riscv_64 { R_RISCV_64 ≡ Standard.R_RISCV_64 }
    ensures r_riscv_call_plt { R_RISCV_CALL_PLT ≡ Standard.R_RISCV_CALL_PLT }
    ensures ef_riscv_float_abi_double { EF_RISCV_FLOAT_ABI_DOUBLE ≡ Standard.EF_RISCV_FLOAT_ABI_DOUBLE }
    ensures sym_size { SYM_SIZE ≡ Standard.SYM_SIZE }
    ensures rela_size { RELA_SIZE ≡ Standard.RELA_SIZE }
{}
