//! The section headers of an object as readelf shows them that two linkers take: code with a call, and debug sections.

use base_list::List;
use elf_content::content::{Content, make_content};
use elf_content::piece::{Field, Piece};
use elf_linkable::object::linkable_object;
use elf_linkable::section::{LinkableSection, LinkableSections, Symbols, section_symbols};
use elf_object::object::{Object, Section};
use elf_object::symbols::{Binding, Symbol, SymbolType, are_locals_first, symbol_names_size};
use elf_relocation::kind::RelocationKind;
use std::alloc::{AllocError, Global};
use std::test::Fail;

/// A section of the program: its name, its flags, its alignment, and the kind of its relocation and the number of its
/// symbol, 0 if it has none.
struct Row {
    name: &'static [u8],
    flags: u64,
    alignment: u64,
    kind: RelocationKind,
    symbol: u32,
}

static ROWS: &[Row] = &[
    Row {
        name: b".text",
        flags: 6,
        alignment: 4,
        kind: RelocationKind::Call,
        symbol: 5,
    },
    Row {
        name: b".debug_abbrev",
        flags: 0,
        alignment: 1,
        kind: RelocationKind::Address64,
        symbol: 0,
    },
    Row {
        name: b".debug_info",
        flags: 0,
        alignment: 1,
        kind: RelocationKind::Address64,
        symbol: 2,
    },
];

/// A section's header as readelf shows it, and the number of its bytes.
struct Header {
    name: &'static [u8],
    section_type: u32,
    flags: u64,
    link: u32,
    info: u32,
    alignment: u64,
    entry_size: u64,
    size: usize,
}

static HEADERS: &[Header] = &[
    Header {
        name: b".text",
        section_type: 1,
        flags: 6,
        link: 0,
        info: 0,
        alignment: 4,
        entry_size: 0,
        size: 8,
    },
    Header {
        name: b".debug_abbrev",
        section_type: 1,
        flags: 0,
        link: 0,
        info: 0,
        alignment: 1,
        entry_size: 0,
        size: 2,
    },
    Header {
        name: b".debug_info",
        section_type: 1,
        flags: 0,
        link: 0,
        info: 0,
        alignment: 1,
        entry_size: 0,
        size: 8,
    },
    Header {
        name: b".rela.text",
        section_type: 4,
        flags: 0x40,
        link: 7,
        info: 1,
        alignment: 8,
        entry_size: 24,
        size: 24,
    },
    Header {
        name: b".rela.debug_info",
        section_type: 4,
        flags: 0x40,
        link: 7,
        info: 3,
        alignment: 8,
        entry_size: 24,
        size: 24,
    },
    Header {
        name: b".note.GNU-stack",
        section_type: 1,
        flags: 0,
        link: 0,
        info: 0,
        alignment: 1,
        entry_size: 0,
        size: 0,
    },
    Header {
        name: b".symtab",
        section_type: 2,
        flags: 0,
        link: 8,
        info: 4,
        alignment: 8,
        entry_size: 24,
        size: 144,
    },
    Header {
        name: b".strtab",
        section_type: 3,
        flags: 0,
        link: 0,
        info: 0,
        alignment: 1,
        entry_size: 0,
        size: 5,
    },
];

/// The content of a section: a field, or two bytes if it has no relocation.
fn content(alloc: Global, row: &Row) -> Result<Content, AllocError> {
    let mut pieces = List::new(alloc);
    if row.symbol == 0 {
        pieces.push(Piece::Fixed(List::from_slice(alloc, &[1, 0])?))?;
    } else {
        pieces.push(Piece::Relocated(Field {
            kind: row.kind,
            symbol: row.symbol,
            addend: 0,
            before: List::from_slice(alloc, &[0; 8])?,
        }))?;
    }
    make_content(alloc, pieces.as_slice())
}

/// The sections of the rows.
fn sections(alloc: Global) -> Result<LinkableSections, AllocError> {
    let mut sections = LinkableSections::new(alloc);
    for row in ROWS {
        sections.push(LinkableSection {
            name: List::from_slice(alloc, row.name)?,
            flags: row.flags,
            alignment: row.alignment,
            content: content(alloc, row)?,
        })?;
    }
    Ok(sections)
}

/// A global symbol of a function of this name.
fn function(alloc: Global, name: &[u8], section: u16) -> Result<Symbol, AllocError> {
    Ok(Symbol {
        name: List::from_slice(alloc, name)?,
        binding: Binding::Global,
        symbol_type: SymbolType::Function,
        section,
        value: 0,
        size: 0,
    })
}

/// Whether a section has a header as it is shown.
fn is_as_shown(section: &Section, header: &Header) -> bool {
    section.name.as_slice() == header.name
        && section.section_type == header.section_type
        && section.flags == header.flags
        && section.link == header.link
        && section.info == header.info
        && section.alignment == header.alignment
        && section.entry_size == header.entry_size
        && section.bytes.len() == header.size
}

/// Whether the sections of an object are as they are shown.
fn are_as_shown(object: &Object) -> bool {
    let sections = object.sections.as_slice();
    if sections.len() != HEADERS.len() {
        return false;
    }
    for (section, header) in sections.iter().zip(HEADERS) {
        if !is_as_shown(section, header) {
            return false;
        }
    }
    true
}

/// The object of sections and symbols, or `None` if they are too many or in no order.
fn object(
    alloc: Global,
    sections: LinkableSections,
    symbols: &[Symbol],
) -> Result<Option<Object>, AllocError> {
    if sections.len() > 9 || symbols.len() > 9 || !are_locals_first(symbols) {
        return Ok(None);
    }
    if symbol_names_size(symbols).is_none() {
        return Ok(None);
    }
    Ok(Some(linkable_object(alloc, 0, sections, symbols)?))
}

#[test]
fn sections_stand_as_linkers_take_them(rt: HostRuntime) -> Result<(), Fail> {
    let alloc = rt.alloc();
    let sections = sections(alloc)?;
    let mut symbols = Symbols::new(alloc);
    if sections.len() < 10 {
        symbols = section_symbols(alloc, sections.as_slice())?;
    }
    symbols.push(function(alloc, b"f", 1)?)?;
    symbols.push(function(alloc, b"g", 0)?)?;
    match object(alloc, sections, symbols.as_slice())? {
        Some(object) => assert!(rt; are_as_shown(&object)),
        None => assert!(rt; false),
    }
    Ok(())
}
