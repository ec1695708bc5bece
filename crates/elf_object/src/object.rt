//! An object as a list of section records.

use base_list::List;

/// Bytes, in order.
pub type Bytes = List<u8>;
/// A name, by its bytes.
pub type Name = List<u8>;
/// Sections, in order.
pub type Sections = List<Section>;

/// A section: what its header says of it, and its bytes (gABI, "Sections").
#[derive(Debug, Drop)]
pub struct Section {
    /// Its name, without a zero byte.
    pub name: Name,
    /// What its bytes are, a constant `SHT_..` (sh_type).
    pub section_type: u32,
    /// How it is used, a sum of constants `SHF_..` (sh_flags).
    pub flags: u64,
    /// The index of the section header that its type refers to (sh_link).
    pub link: u32,
    /// More about it, by its type (sh_info).
    pub info: u32,
    /// What its address in memory is a multiple of, in bytes: 1, 2, 4 or 8, or 0, which is as 1 (sh_addralign).
    pub alignment: u64,
    /// The size in bytes of an entry of a table; 0 if it is none (sh_entsize).
    pub entry_size: u64,
    /// Its bytes.
    pub bytes: Bytes,
}

/// A relocatable object. The index of its first section in the section header table is 1.
#[derive(Debug, Drop)]
pub struct Object {
    /// The flags of the processor, constants `EF_RISCV_..` (e_flags).
    pub flags: u32,
    /// The sections but for the null one and that of their names.
    pub sections: Sections,
}
