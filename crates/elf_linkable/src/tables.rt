//! The sections that a linker reads: relocations, symbols and their names.

ghost use Rattle.std.specs.Prelude.{◌≡◌, ◌<◌, ◌^◌, ◌++◌, length, OnOk, IfOk};
ghost use Rattle.elf_object.specs.Symbols.{symbol_names, LocalsFirst, first_global, is_local};
ghost use Rattle.elf_linkable.specs.Linkable;
ghost use Rattle.elf_linkable.specs.Linkable.{relocation_section_if, relocation_sections};

use crate::section::LinkableSection;
use elf_object::constants::*;
use elf_object::object::{Name, Section, Sections};
use elf_object::relocations::{Relocation, write_relocations};
use elf_object::symbols::{Binding, Symbol, write_symbol_names, write_symbols};
use std::alloc::{AllocError, Global};

static RELOCATIONS_NAME: [u8; 5] = *b".rela";

static STACK_NAME: [u8; 15] = *b".note.GNU-stack";

static SYMBOLS_NAME: [u8; 7] = *b".symtab";

static NAMES_NAME: [u8; 7] = *b".strtab";

/// Appends the relocations of sections, by the symbol table of an index.
pub fn push_relocations(
    alloc: Global,
    out: &mut Sections,
    table: u32,
    sections: &[LinkableSection],
) -> Result<(), AllocError>
    requires { length sections.now < 2 ^ 15 }
    ensures { OnOk result (out.new ≡ out.old ++ relocation_sections table 1 sections.now) }
{
    for (index, section) in sections.iter().enumerate() {
        let name = section.name.as_slice();
        let relocations = section.content.relocations.as_slice();
        push_one(alloc, out, table, (index + 1) as u32, name, relocations)?;
    }
    Ok(())
}

/// Appends the relocations of the section of an index, if it has any.
fn push_one(
    alloc: Global,
    out: &mut Sections,
    table: u32,
    index: u32,
    name: &[u8],
    relocations: &[Relocation],
) -> Result<(), AllocError>
    ensures { OnOk result (out.new ≡ out.old ++ relocation_section_if table index name.now relocations.now) }
{
    match relocations {
        [] => Ok(()),
        _ => out.push(relocation_section(alloc, table, index, name, relocations)?),
    }
}

/// The relocations of the section of an index.
fn relocation_section(
    alloc: Global,
    table: u32,
    index: u32,
    name: &[u8],
    relocations: &[Relocation],
) -> Result<Section, AllocError>
    ensures { IfOk result (λ s. s ≡ Linkable.relocation_section table index name.now relocations.now) }
{
    let mut whole = Vec::new(alloc);
    whole.extend_from_slice(&RELOCATIONS_NAME)?;
    whole.extend_from_slice(name)?;
    let bytes = write_relocations(alloc, relocations)?;
    Ok(Section {
        name: Name::from(whole),
        section_type: SHT_RELA,
        flags: SHF_INFO_LINK,
        link: table,
        info: index,
        alignment: 8,
        entry_size: RELA_SIZE,
        bytes,
    })
}

/// The section that says that no executable stack is needed.
pub fn stack_section(alloc: Global) -> Result<Section, AllocError>
    ensures { IfOk result (λ s. s ≡ Linkable.stack_section) }
{
    Ok(Section {
        name: Name::from_slice(alloc, &STACK_NAME)?,
        section_type: SHT_PROGBITS,
        flags: 0,
        link: 0,
        info: 0,
        alignment: 1,
        entry_size: 0,
        bytes: Name::new(alloc),
    })
}

/// The section of symbols, whose names are in the section of an index.
pub fn symbol_section(alloc: Global, names: u32, symbols: &[Symbol]) -> Result<Section, AllocError>
    requires locals { LocalsFirst symbols.now }
    requires names { length (symbol_names symbols.now) < 2 ^ 32 }
    requires few { first_global symbols.now < 2 ^ 32 }
    ensures { IfOk result (λ s. s ≡ Linkable.symbol_section names symbols.now) }
{
    let bytes = write_symbols(alloc, symbols)?;
    Ok(Section {
        name: Name::from_slice(alloc, &SYMBOLS_NAME)?,
        section_type: SHT_SYMTAB,
        flags: 0,
        link: names,
        info: first_of_others(symbols),
        alignment: 8,
        entry_size: SYM_SIZE,
        bytes,
    })
}

/// The number of the first symbol that isn't local, where the local ones stand first.
fn first_of_others(symbols: &[Symbol]) -> u32
    requires { first_global symbols.now < 2 ^ 32 }
    ensures { result ≡ first_global symbols.now }
{
    let mut count = 1;
    for symbol in symbols {
        if is_local(symbol) {
            count += 1;
        }
    }
    count
}

/// Whether a symbol is local.
fn is_local(symbol: &Symbol) -> bool
    ensures { result ≡ is_local symbol.now.binding }
{
    match symbol.binding {
        Binding::Local => true,
        Binding::Global | Binding::Weak => false,
    }
}

/// The section of the symbols' names.
pub fn name_section(alloc: Global, symbols: &[Symbol]) -> Result<Section, AllocError>
    ensures { IfOk result (λ s. s ≡ Linkable.name_section symbols.now) }
{
    let bytes = write_symbol_names(alloc, symbols)?;
    Ok(Section {
        name: Name::from_slice(alloc, &NAMES_NAME)?,
        section_type: SHT_STRTAB,
        flags: 0,
        link: 0,
        info: 0,
        alignment: 1,
        entry_size: 0,
        bytes,
    })
}
