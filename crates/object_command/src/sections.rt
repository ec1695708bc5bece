//! The sections of an object.

ghost use Rattle.std.specs.Prelude.{◌≡◌, ◌<◌, ◌^◌, ◌++◌, ◌∷◌, [], codes, length, OnOk, IfOk};
ghost use Rattle.elf_object.specs.Symbols;
ghost use Rattle.object_command.specs.Object;

use crate::symbols::TEXT;
use elf_object::constants::*;
use elf_object::object::{Bytes, Name, Section, Sections};
use elf_object::relocations::{Relocation, write_relocations};
use elf_object::symbols::{Symbol, write_symbol_names, write_symbols};
use std::alloc::{AllocError, Global};

static TEXT_NAME: [u8; 5] = *b".text";

static ABBREV: [u8; 13] = *b".debug_abbrev";

static INFO: [u8; 11] = *b".debug_info";

static LINE: [u8; 11] = *b".debug_line";

static LOCLISTS: [u8; 15] = *b".debug_loclists";

static RELOCATIONS_NAME: [u8; 10] = *b".rela.text";

static SYMBOLS_NAME: [u8; 7] = *b".symtab";

static NAMES_NAME: [u8; 7] = *b".strtab";

/// The index of the symbol table in the section header table.
const SYMBOLS: u32 = 7;
/// The index of the table of its names.
const NAMES: u32 = 8;

/// Appends the sections of machine code, and of its relocations.
pub fn push_code(
    alloc: Global,
    sections: &mut Sections,
    text: Bytes,
    relocations: &[Relocation],
) -> Result<(), AllocError>
    ensures { OnOk result (sections.new
        ≡ sections.old ++ Object.text_section text ∷ Object.relocation_section relocations.now ∷ []) }
{
    sections.push(text_section(alloc, text)?)?;
    sections.push(relocation_section(alloc, relocations)?)?;
    Ok(())
}

/// Appends the sections of debugging information.
pub fn push_debug(
    alloc: Global,
    sections: &mut Sections,
    abbreviations: Bytes,
    info: Bytes,
    rows: Bytes,
    loclists: Bytes,
) -> Result<(), AllocError>
    ensures { OnOk result (sections.new ≡ sections.old
        ++ Object.debug_section (codes ".debug_abbrev") abbreviations
        ∷ Object.debug_section (codes ".debug_info") info
        ∷ Object.debug_section (codes ".debug_line") rows
        ∷ Object.debug_section (codes ".debug_loclists") loclists ∷ []) }
{
    sections.push(debug_section(alloc, &ABBREV, abbreviations)?)?;
    sections.push(debug_section(alloc, &INFO, info)?)?;
    sections.push(debug_section(alloc, &LINE, rows)?)?;
    sections.push(debug_section(alloc, &LOCLISTS, loclists)?)?;
    Ok(())
}

/// Appends the sections of symbols, and of their names.
pub fn push_symbols(
    alloc: Global,
    sections: &mut Sections,
    symbols: &[Symbol],
) -> Result<(), AllocError>
    requires locals { Symbols.LocalsFirst symbols.now }
    requires names { length (Symbols.symbol_names symbols.now) < 2 ^ 32 }
    ensures { OnOk result (sections.new
        ≡ sections.old ++ Object.symbol_section symbols.now ∷ Object.name_section symbols.now ∷ []) }
{
    sections.push(symbol_section(alloc, symbols)?)?;
    sections.push(name_section(alloc, symbols)?)?;
    Ok(())
}

/// The section of machine code.
fn text_section(alloc: Global, bytes: Bytes) -> Result<Section, AllocError>
    ensures { IfOk result (λ s. s ≡ Object.text_section bytes) }
{
    Ok(Section {
        name: Name::from_slice(alloc, &TEXT_NAME)?,
        section_type: SHT_PROGBITS,
        flags: SHF_ALLOC + SHF_EXECINSTR,
        link: 0,
        info: 0,
        alignment: 4,
        entry_size: 0,
        bytes,
    })
}

/// The section of relocations of machine code.
fn relocation_section(alloc: Global, relocations: &[Relocation]) -> Result<Section, AllocError>
    ensures { IfOk result (λ s. s ≡ Object.relocation_section relocations.now) }
{
    let bytes = write_relocations(alloc, relocations)?;
    Ok(Section {
        name: Name::from_slice(alloc, &RELOCATIONS_NAME)?,
        section_type: SHT_RELA,
        flags: SHF_INFO_LINK,
        link: SYMBOLS,
        info: u32::from(TEXT),
        alignment: 8,
        entry_size: RELA_SIZE,
        bytes,
    })
}

/// A section of debugging information.
fn debug_section(alloc: Global, name: &[u8], bytes: Bytes) -> Result<Section, AllocError>
    ensures { IfOk result (λ s. s ≡ Object.debug_section name.now bytes) }
{
    Ok(Section {
        name: Name::from_slice(alloc, name)?,
        section_type: SHT_PROGBITS,
        flags: 0,
        link: 0,
        info: 0,
        alignment: 1,
        entry_size: 0,
        bytes,
    })
}

/// The section of symbols.
fn symbol_section(alloc: Global, symbols: &[Symbol]) -> Result<Section, AllocError>
    requires locals { Symbols.LocalsFirst symbols.now }
    requires names { length (Symbols.symbol_names symbols.now) < 2 ^ 32 }
    ensures { IfOk result (λ s. s ≡ Object.symbol_section symbols.now) }
{
    let bytes = write_symbols(alloc, symbols)?;
    Ok(Section {
        name: Name::from_slice(alloc, &SYMBOLS_NAME)?,
        section_type: SHT_SYMTAB,
        flags: 0,
        link: NAMES,
        info: 1,
        alignment: 8,
        entry_size: SYM_SIZE,
        bytes,
    })
}

/// The section of the symbols' names.
fn name_section(alloc: Global, symbols: &[Symbol]) -> Result<Section, AllocError>
    ensures { IfOk result (λ s. s ≡ Object.name_section symbols.now) }
{
    let bytes = write_symbol_names(alloc, symbols)?;
    Ok(Section {
        name: Name::from_slice(alloc, &NAMES_NAME)?,
        section_type: SHT_STRTAB,
        flags: 0,
        link: 0,
        info: 0,
        alignment: 1,
        entry_size: 0,
        bytes,
    })
}
