//! The ELF header and the section headers, as bytes.

ghost use Rattle.std.specs.Prelude.{◌≡◌, ◌+◌, ◌<◌, ◌++◌, length, OnOk};
ghost use Rattle.elf_object.specs.Grammar.{FitsHeader};
ghost use Rattle.elf_object.specs.Spelling;

use crate::constants::*;
use crate::object::Section;
use std::alloc::AllocError;

/// The bytes EI_CLASS to EI_NIDENT - 1 of e_ident: the last eight are zero (gABI, "ELF Identification").
static IDENTIFICATION: [u8; 12] = [
    ELFCLASS64,
    ELFDATA2LSB,
    EV_CURRENT,
    ELFOSABI_NONE,
    0,
    0,
    0,
    0,
    0,
    0,
    0,
    0,
];

/// Appends the ELF header, with the offset of the section header table in bytes and the number of its entries.
#[tactic(auto, unfolding(crate::specs::Spelling::file_header))]
pub fn push_file_header(
    out: &mut Vec<u8>,
    flags: u32,
    table: u64,
    count: u16,
) -> Result<(), AllocError>
    requires { 0 < count }
    ensures { OnOk result (out.new.items ≡ out.old.items ++ Spelling.file_header flags table count) }
{
    out.extend_from_slice(&ELFMAG)?;
    out.extend_from_slice(&IDENTIFICATION)?;
    out.extend_from_slice(&ET_REL.to_le_bytes())?;
    out.extend_from_slice(&EM_RISCV.to_le_bytes())?;
    out.extend_from_slice(&(EV_CURRENT as u32).to_le_bytes())?;
    out.extend_from_slice(&0u64.to_le_bytes())?;
    out.extend_from_slice(&0u64.to_le_bytes())?;
    out.extend_from_slice(&table.to_le_bytes())?;
    out.extend_from_slice(&flags.to_le_bytes())?;
    out.extend_from_slice(&EHDR_SIZE.to_le_bytes())?;
    out.extend_from_slice(&0u16.to_le_bytes())?;
    out.extend_from_slice(&0u16.to_le_bytes())?;
    out.extend_from_slice(&SHDR_SIZE.to_le_bytes())?;
    out.extend_from_slice(&count.to_le_bytes())?;
    out.extend_from_slice(&(count - 1).to_le_bytes())?;
    Ok(())
}

/// Appends a section's header, with the offset of its name in the table of names and its own in the file, in bytes.
#[tactic(auto, unfolding(crate::specs::Spelling::section_header))]
pub fn push_section_header(
    out: &mut Vec<u8>,
    name_at: u32,
    offset: u64,
    section: &Section,
) -> Result<(), AllocError>
    ensures bytes { OnOk result (out.new.items ≡ out.old.items ++ Spelling.section_header name_at offset section.now) }
    ensures fits { OnOk result (FitsHeader section.now) }
{
    out.extend_from_slice(&name_at.to_le_bytes())?;
    out.extend_from_slice(&section.section_type.to_le_bytes())?;
    out.extend_from_slice(&section.flags.to_le_bytes())?;
    out.extend_from_slice(&0u64.to_le_bytes())?;
    out.extend_from_slice(&offset.to_le_bytes())?;
    out.extend_from_slice(&(section.bytes.len() as u64).to_le_bytes())?;
    out.extend_from_slice(&section.link.to_le_bytes())?;
    out.extend_from_slice(&section.info.to_le_bytes())?;
    out.extend_from_slice(&section.alignment.to_le_bytes())?;
    out.extend_from_slice(&section.entry_size.to_le_bytes())?;
    Ok(())
}
