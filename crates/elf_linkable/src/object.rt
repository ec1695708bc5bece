//! The object of sections that a linker places.

ghost use Rattle.std.specs.Prelude.{◌≡◌, ◌-◌, ◌<◌, ◌^◌, ◌++◌, length, map, count_by, OnOk, IfOk};
ghost use Rattle.elf_object.specs.Symbols.{symbol_names, LocalsFirst};
ghost use Rattle.elf_linkable.specs.Linkable;
ghost use Rattle.elf_linkable.specs.Linkable.{is_relocated, object_of};

use crate::section::{LinkableSection, LinkableSections};
use crate::tables::{name_section, push_relocations, stack_section, symbol_section};
use elf_content::content::Content;
use elf_object::constants::SHT_PROGBITS;
use elf_object::object::{Object, Section, Sections};
use elf_object::symbols::Symbol;
use std::alloc::{AllocError, Global};

/// The object of sections with their relocations, and of symbols, of which the local ones stand first: those of the
/// sections (`section_symbols`), and then others. `flags` are those of the processor, constants `EF_RISCV_..`. The
/// error is out of memory.
pub fn linkable_object(
    alloc: Global,
    flags: u32,
    sections: LinkableSections,
    symbols: &[Symbol],
) -> Result<Object, AllocError>
    requires sections { length sections < 2 ^ 15 }
    requires locals { LocalsFirst symbols.now }
    requires names { length (symbol_names symbols.now) < 2 ^ 32 }
    requires symbols { length symbols.now < 2 ^ 32 - 1 }
    ensures { IfOk result (λ o. o ≡ object_of flags sections symbols.now) }
{
    let table = sections.len() as u32 + count_relocated(sections.as_slice()) + 2;
    let mut relocations = Sections::new(alloc);
    push_relocations(alloc, &mut relocations, table, sections.as_slice())?;
    let mut all = contents(alloc, sections)?;
    append(&mut all, relocations)?;
    all.push(stack_section(alloc)?)?;
    all.push(symbol_section(alloc, table + 1, symbols)?)?;
    all.push(name_section(alloc, symbols)?)?;
    Ok(Object {
        flags,
        sections: all,
    })
}

/// The number of sections that have relocations.
fn count_relocated(sections: &[LinkableSection]) -> u32
    requires { length sections.now < 2 ^ 15 }
    ensures exact { result ≡ count_by is_relocated sections.now }
    ensures below { result < 2 ^ 15 }
{
    let mut count: u32 = 0;
    for section in sections {
        if section.content.relocations.len() > 0 {
            count += 1;
        }
    }
    count
}

/// Sections without their relocations.
fn contents(alloc: Global, sections: LinkableSections) -> Result<Sections, AllocError>
    ensures { IfOk result (λ made. made ≡ map Linkable.content_section sections) }
{
    let mut made = Sections::new(alloc);
    for section in sections.into_vec() {
        made.push(content_section(section))?;
    }
    Ok(made)
}

/// A section without its relocations.
fn content_section(section: LinkableSection) -> Section
    ensures { result ≡ Linkable.content_section section }
{
    let LinkableSection {
        name,
        flags,
        alignment,
        content,
    } = section;
    let Content {
        bytes,
        relocations: _,
    } = content;
    Section {
        name,
        section_type: SHT_PROGBITS,
        flags,
        link: 0,
        info: 0,
        alignment,
        entry_size: 0,
        bytes,
    }
}

/// Appends sections.
fn append(all: &mut Sections, more: Sections) -> Result<(), AllocError>
    ensures { OnOk result (all.new ≡ all.old ++ more) }
{
    for section in more.into_vec() {
        all.push(section)?;
    }
    Ok(())
}
