//! An object by the System V gABI and the RISC-V psABI, compared with readelf and llvm-readobj: a function `f` with a
//! call of `g`, which the file doesn't define, and its debug sections.

use crate::changed::changed;
use base_list::List;
use elf_object::alignment::are_aligned;
use elf_object::constants::*;
use elf_object::names::are_named;
use elf_object::object::{Object, Section};
use elf_object::read::{ReadError, read_object};
use elf_object::relocations::{Relocation, write_relocations};
use elf_object::size::object_size;
use elf_object::symbols::{
    Binding, Symbol, SymbolType, are_locals_first, symbol_names_size, write_symbol_names,
    write_symbols,
};
use elf_object::write::write_object;
use std::alloc::{AllocError, Global};
use std::test::Fail;

/// The file.
static OBJECT: [u8; 1232] = [
    0x7f, 0x45, 0x4c, 0x46, 2, 1, 1, 0, 0, 0, 0, 0, 0, 0, 0, 0, 1, 0, 0xf3, 0, 1, 0, 0, 0, 0, 0, 0,
    0, 0, 0, 0, 0, 0, 0, 0, 0, 0, 0, 0, 0, 0x50, 2, 0, 0, 0, 0, 0, 0, 0, 0, 0, 0, 0x40, 0, 0, 0, 0,
    0, 0x40, 0, 0xa, 0, 9, 0, 0x13, 1, 1, 0xff, 0x23, 0x30, 0x11, 0, 0x23, 0x34, 0x21, 1, 0x13, 9,
    5, 0, 0x97, 0, 0, 0, 0xe7, 0x80, 0, 0, 0x33, 5, 0x25, 1, 0x83, 0x30, 1, 0, 3, 0x39, 0x81, 0,
    0x13, 1, 1, 1, 0x67, 0x80, 0, 0, 0, 0, 0, 0, 0x10, 0, 0, 0, 0, 0, 0, 0, 0x13, 0, 0, 0, 2, 0, 0,
    0, 0, 0, 0, 0, 0, 0, 0, 0, 1, 0x11, 1, 0x13, 5, 3, 8, 0x1b, 8, 0x10, 0x17, 0x11, 1, 0x12, 6,
    0x8c, 1, 0x17, 0, 0, 2, 0x2e, 1, 3, 8, 0x11, 1, 0x12, 6, 0, 0, 3, 5, 0, 3, 8, 0x49, 0x13, 2,
    0x22, 0, 0, 4, 5, 0, 3, 8, 2, 0x22, 0, 0, 5, 0x34, 0, 3, 8, 0x49, 0x13, 2, 0x22, 0, 0, 6, 0x34,
    0, 3, 8, 2, 0x22, 0, 0, 7, 0x24, 0, 3, 8, 0xb, 0xb, 0x3e, 0xb, 0, 0, 0, 0, 0, 0, 0, 0, 0x47, 0,
    0, 0, 5, 0, 1, 8, 0, 0, 0, 0, 1, 0xc, 0, 0x74, 0x2e, 0x63, 0, 0x2f, 0x64, 0, 0, 0, 0, 0, 0, 0,
    0, 0, 0, 0, 0, 0, 0x2c, 0, 0, 0, 0xc, 0, 0, 0, 7, 0x6c, 0x6f, 0x6e, 0x67, 0, 8, 5, 2, 0x66, 0,
    0, 0, 0, 0, 0, 0, 0, 0, 0x2c, 0, 0, 0, 5, 0x76, 0, 0x2a, 0, 0, 0, 0, 0, 0, 0, 0, 0, 0, 0, 0x44,
    0, 0, 0, 5, 0, 8, 0, 0x29, 0, 0, 0, 1, 1, 1, 0xfb, 0xe, 0xd, 0, 1, 1, 1, 1, 0, 0, 0, 1, 0, 0,
    1, 1, 1, 8, 1, 0x2f, 0x64, 0, 2, 1, 8, 2, 0xf, 2, 0x74, 0x2e, 0x63, 0, 0, 0x74, 0x2e, 0x63, 0,
    0, 0, 9, 2, 0, 0, 0, 0, 0, 0, 0, 0, 3, 0x7f, 1, 2, 0x2c, 0, 1, 1, 0x17, 0, 0, 0, 5, 0, 8, 0, 1,
    0, 0, 0, 4, 0, 0, 0, 4, 0xc, 0x18, 1, 0x5a, 4, 0x18, 0x24, 1, 0x62, 0, 0, 0, 0, 0, 0, 0, 0, 0,
    0, 0, 0, 0, 0, 0, 0, 0, 0, 0, 0, 0, 0, 0, 0, 0, 0, 0, 0, 0, 0, 1, 0, 0, 0, 0x12, 0, 1, 0, 0, 0,
    0, 0, 0, 0, 0, 0, 0x2c, 0, 0, 0, 0, 0, 0, 0, 3, 0, 0, 0, 0x10, 0, 0, 0, 0, 0, 0, 0, 0, 0, 0, 0,
    0, 0, 0, 0, 0, 0, 0, 0, 0, 0x66, 0, 0x67, 0, 0, 0, 0, 0, 0x2e, 0x74, 0x65, 0x78, 0x74, 0, 0x2e,
    0x72, 0x65, 0x6c, 0x61, 0x2e, 0x74, 0x65, 0x78, 0x74, 0, 0x2e, 0x64, 0x65, 0x62, 0x75, 0x67,
    0x5f, 0x61, 0x62, 0x62, 0x72, 0x65, 0x76, 0, 0x2e, 0x64, 0x65, 0x62, 0x75, 0x67, 0x5f, 0x69,
    0x6e, 0x66, 0x6f, 0, 0x2e, 0x64, 0x65, 0x62, 0x75, 0x67, 0x5f, 0x6c, 0x69, 0x6e, 0x65, 0, 0x2e,
    0x64, 0x65, 0x62, 0x75, 0x67, 0x5f, 0x6c, 0x6f, 0x63, 0x6c, 0x69, 0x73, 0x74, 0x73, 0, 0x2e,
    0x73, 0x79, 0x6d, 0x74, 0x61, 0x62, 0, 0x2e, 0x73, 0x74, 0x72, 0x74, 0x61, 0x62, 0, 0x2e, 0x73,
    0x68, 0x73, 0x74, 0x72, 0x74, 0x61, 0x62, 0, 0, 0, 0, 0, 0, 0, 0, 0, 0, 0, 0, 0, 0, 0, 0, 0, 0,
    0, 0, 0, 0, 0, 0, 0, 0, 0, 0, 0, 0, 0, 0, 0, 0, 0, 0, 0, 0, 0, 0, 0, 0, 0, 0, 0, 0, 0, 0, 0, 0,
    0, 0, 0, 0, 0, 0, 0, 0, 0, 0, 0, 0, 0, 0, 0, 0, 0, 0, 0, 0, 0, 1, 0, 0, 0, 1, 0, 0, 0, 6, 0, 0,
    0, 0, 0, 0, 0, 0, 0, 0, 0, 0, 0, 0, 0, 0x40, 0, 0, 0, 0, 0, 0, 0, 0x2c, 0, 0, 0, 0, 0, 0, 0, 0,
    0, 0, 0, 0, 0, 0, 0, 4, 0, 0, 0, 0, 0, 0, 0, 0, 0, 0, 0, 0, 0, 0, 0, 7, 0, 0, 0, 4, 0, 0, 0,
    0x40, 0, 0, 0, 0, 0, 0, 0, 0, 0, 0, 0, 0, 0, 0, 0, 0x70, 0, 0, 0, 0, 0, 0, 0, 0x18, 0, 0, 0, 0,
    0, 0, 0, 7, 0, 0, 0, 1, 0, 0, 0, 8, 0, 0, 0, 0, 0, 0, 0, 0x18, 0, 0, 0, 0, 0, 0, 0, 0x12, 0, 0,
    0, 1, 0, 0, 0, 0, 0, 0, 0, 0, 0, 0, 0, 0, 0, 0, 0, 0, 0, 0, 0, 0x88, 0, 0, 0, 0, 0, 0, 0, 0x53,
    0, 0, 0, 0, 0, 0, 0, 0, 0, 0, 0, 0, 0, 0, 0, 1, 0, 0, 0, 0, 0, 0, 0, 0, 0, 0, 0, 0, 0, 0, 0,
    0x20, 0, 0, 0, 1, 0, 0, 0, 0, 0, 0, 0, 0, 0, 0, 0, 0, 0, 0, 0, 0, 0, 0, 0, 0xe0, 0, 0, 0, 0, 0,
    0, 0, 0x4b, 0, 0, 0, 0, 0, 0, 0, 0, 0, 0, 0, 0, 0, 0, 0, 1, 0, 0, 0, 0, 0, 0, 0, 0, 0, 0, 0, 0,
    0, 0, 0, 0x2c, 0, 0, 0, 1, 0, 0, 0, 0, 0, 0, 0, 0, 0, 0, 0, 0, 0, 0, 0, 0, 0, 0, 0, 0x30, 1, 0,
    0, 0, 0, 0, 0, 0x48, 0, 0, 0, 0, 0, 0, 0, 0, 0, 0, 0, 0, 0, 0, 0, 1, 0, 0, 0, 0, 0, 0, 0, 0, 0,
    0, 0, 0, 0, 0, 0, 0x38, 0, 0, 0, 1, 0, 0, 0, 0, 0, 0, 0, 0, 0, 0, 0, 0, 0, 0, 0, 0, 0, 0, 0,
    0x78, 1, 0, 0, 0, 0, 0, 0, 0x1b, 0, 0, 0, 0, 0, 0, 0, 0, 0, 0, 0, 0, 0, 0, 0, 1, 0, 0, 0, 0, 0,
    0, 0, 0, 0, 0, 0, 0, 0, 0, 0, 0x48, 0, 0, 0, 2, 0, 0, 0, 0, 0, 0, 0, 0, 0, 0, 0, 0, 0, 0, 0, 0,
    0, 0, 0, 0x98, 1, 0, 0, 0, 0, 0, 0, 0x48, 0, 0, 0, 0, 0, 0, 0, 8, 0, 0, 0, 1, 0, 0, 0, 8, 0, 0,
    0, 0, 0, 0, 0, 0x18, 0, 0, 0, 0, 0, 0, 0, 0x50, 0, 0, 0, 3, 0, 0, 0, 0, 0, 0, 0, 0, 0, 0, 0, 0,
    0, 0, 0, 0, 0, 0, 0, 0xe0, 1, 0, 0, 0, 0, 0, 0, 5, 0, 0, 0, 0, 0, 0, 0, 0, 0, 0, 0, 0, 0, 0, 0,
    1, 0, 0, 0, 0, 0, 0, 0, 0, 0, 0, 0, 0, 0, 0, 0, 0x58, 0, 0, 0, 3, 0, 0, 0, 0, 0, 0, 0, 0, 0, 0,
    0, 0, 0, 0, 0, 0, 0, 0, 0, 0xe8, 1, 0, 0, 0, 0, 0, 0, 0x62, 0, 0, 0, 0, 0, 0, 0, 0, 0, 0, 0, 0,
    0, 0, 0, 1, 0, 0, 0, 0, 0, 0, 0, 0, 0, 0, 0, 0, 0, 0, 0,
];

/// What a section's header has, and where its bytes are in the file.
struct Header {
    name: &'static [u8],
    section_type: u32,
    flags: u64,
    link: u32,
    info: u32,
    alignment: u64,
    entry_size: u64,
    from: usize,
    to: usize,
}

/// The sections between the null one and that of the names.
static HEADERS: &[Header] = &[
    Header {
        name: b".text",
        section_type: SHT_PROGBITS,
        flags: SHF_ALLOC + SHF_EXECINSTR,
        link: 0,
        info: 0,
        alignment: 4,
        entry_size: 0,
        from: 64,
        to: 108,
    },
    Header {
        name: b".rela.text",
        section_type: SHT_RELA,
        flags: SHF_INFO_LINK,
        link: 7,
        info: 1,
        alignment: 8,
        entry_size: 24,
        from: 112,
        to: 136,
    },
    Header {
        name: b".debug_abbrev",
        section_type: SHT_PROGBITS,
        flags: 0,
        link: 0,
        info: 0,
        alignment: 1,
        entry_size: 0,
        from: 136,
        to: 219,
    },
    Header {
        name: b".debug_info",
        section_type: SHT_PROGBITS,
        flags: 0,
        link: 0,
        info: 0,
        alignment: 1,
        entry_size: 0,
        from: 224,
        to: 299,
    },
    Header {
        name: b".debug_line",
        section_type: SHT_PROGBITS,
        flags: 0,
        link: 0,
        info: 0,
        alignment: 1,
        entry_size: 0,
        from: 304,
        to: 376,
    },
    Header {
        name: b".debug_loclists",
        section_type: SHT_PROGBITS,
        flags: 0,
        link: 0,
        info: 0,
        alignment: 1,
        entry_size: 0,
        from: 376,
        to: 403,
    },
    Header {
        name: b".symtab",
        section_type: SHT_SYMTAB,
        flags: 0,
        link: 8,
        info: 1,
        alignment: 8,
        entry_size: 24,
        from: 408,
        to: 480,
    },
    Header {
        name: b".strtab",
        section_type: SHT_STRTAB,
        flags: 0,
        link: 0,
        info: 0,
        alignment: 1,
        entry_size: 0,
        from: 480,
        to: 485,
    },
];

/// A part of the file.
fn part(from: usize, to: usize) -> &'static [u8] {
    if from <= to && to <= OBJECT.len() {
        &OBJECT[from..to]
    } else {
        &OBJECT[..0]
    }
}

/// The section with a header.
fn section(alloc: Global, header: &Header) -> Result<Section, AllocError> {
    let name = List::from_slice(alloc, header.name)?;
    let bytes = List::from_slice(alloc, part(header.from, header.to))?;
    Ok(Section {
        name,
        section_type: header.section_type,
        flags: header.flags,
        link: header.link,
        info: header.info,
        alignment: header.alignment,
        entry_size: header.entry_size,
        bytes,
    })
}

/// The object with the sections of these headers.
fn object(alloc: Global, headers: &[Header]) -> Result<Object, AllocError> {
    let mut sections = List::new(alloc);
    for header in headers {
        sections.push(section(alloc, header)?)?;
    }
    Ok(Object { flags: 0, sections })
}

/// Whether the file of an object is this one, and its size is as told.
fn is_file(alloc: Global, o: &Object, bytes: &[u8]) -> bool {
    if !are_named(o.sections.as_slice()) {
        return false;
    }
    if !are_aligned(o.sections.as_slice()) {
        return false;
    }
    let Some(size) = object_size(o) else {
        return false;
    };
    match write_object(alloc, o) {
        Ok(written) => written.as_slice() == bytes && bytes.len() == size as usize,
        Err(_) => false,
    }
}

#[test]
fn the_file_is_written_byte_for_byte(rt: HostRuntime) -> Result<(), Fail> {
    let alloc = rt.alloc();
    let o = object(alloc, HEADERS)?;
    assert!(rt; is_file(alloc, &o, &OBJECT));
    Ok(())
}

/// A symbol of a function, or of one that is called.
fn symbol(
    alloc: Global,
    name: &[u8],
    symbol_type: SymbolType,
    section: u16,
    size: u64,
) -> Result<Symbol, AllocError> {
    Ok(Symbol {
        name: List::from_slice(alloc, name)?,
        binding: Binding::Global,
        symbol_type,
        section,
        value: 0,
        size,
    })
}

/// Whether symbols have these names and this table.
pub(crate) fn are_symbols(alloc: Global, symbols: &[Symbol], names: &[u8], table: &[u8]) -> bool {
    if !are_locals_first(symbols) {
        return false;
    }
    let Some(size) = symbol_names_size(symbols) else {
        return false;
    };
    if size as usize != names.len() {
        return false;
    }
    let written = match write_symbol_names(alloc, symbols) {
        Ok(written) => written,
        Err(_) => return false,
    };
    if written.len() > names.len() || names.len() > 100 || written.as_slice() != names {
        return false;
    }
    match write_symbols(alloc, symbols) {
        Ok(written) => written.as_slice() == table,
        Err(_) => false,
    }
}

/// The symbols of `f` and of `g`.
fn called(alloc: Global) -> Result<List<Symbol>, AllocError> {
    let mut symbols = List::new(alloc);
    symbols.push(symbol(alloc, b"f", SymbolType::Function, 1, 0x2c)?)?;
    symbols.push(symbol(alloc, b"g", SymbolType::NoType, SHN_UNDEF, 0)?)?;
    Ok(symbols)
}

/// Whether the relocation of the call of `g` has these bytes.
fn is_call(alloc: Global, bytes: &[u8]) -> bool {
    let call = Relocation {
        offset: 0x10,
        symbol: 2,
        relocation_type: R_RISCV_CALL_PLT,
        addend: 0,
    };
    match write_relocations(alloc, &[call]) {
        Ok(written) => written.as_slice() == bytes,
        Err(_) => false,
    }
}

#[test]
fn symbols_and_relocations_are_written_byte_for_byte(rt: HostRuntime) -> Result<(), Fail> {
    let symbols = called(rt.alloc())?;
    assert!(rt;
        are_symbols(
            rt.alloc(),
            symbols.as_slice(),
            b"\0f\0g\0",
            &OBJECT[408..480]
        )
    );
    assert!(rt; is_call(rt.alloc(), &OBJECT[112..136]));
    Ok(())
}

/// A symbol without a name, with this binding.
fn bound(alloc: Global, binding: Binding) -> Symbol {
    Symbol {
        name: List::new(alloc),
        binding,
        symbol_type: SymbolType::NoType,
        section: 1,
        value: 0,
        size: 0,
    }
}

/// Whether local symbols stand first where symbols are bound so.
fn stand_first(alloc: Global, bindings: &[Binding]) -> Result<bool, AllocError> {
    let mut symbols = List::new(alloc);
    for binding in bindings {
        symbols.push(bound(alloc, *binding))?;
    }
    Ok(are_locals_first(symbols.as_slice()))
}

#[test]
fn local_symbols_stand_first(rt: HostRuntime) -> Result<(), Fail> {
    let right = [
        Binding::Local,
        Binding::Local,
        Binding::Weak,
        Binding::Global,
    ];
    assert!(rt; stand_first(rt.alloc(), &right)?);
    assert!(rt; !stand_first(rt.alloc(), &[Binding::Weak, Binding::Local])?);
    Ok(())
}

/// A byte of the file that becomes another, and the first wrong field then.
struct Damage {
    at: usize,
    byte: u8,
    fault: usize,
}

/// Each kind of field, in the order in which they are judged.
static DAMAGES: &[Damage] = &[
    // e_ident, e_machine, e_shoff, e_ehsize and e_shstrndx
    Damage {
        at: 1,
        byte: 0,
        fault: 0,
    },
    Damage {
        at: 9,
        byte: 1,
        fault: 9,
    },
    Damage {
        at: 18,
        byte: 0x3e,
        fault: 18,
    },
    Damage {
        at: 41,
        byte: 3,
        fault: 40,
    },
    Damage {
        at: 52,
        byte: 65,
        fault: 52,
    },
    Damage {
        at: 62,
        byte: 8,
        fault: 62,
    },
    // the null section's header
    Damage {
        at: 600,
        byte: 1,
        fault: 600,
    },
    // the header of `.text`: its name, address, offset and size
    Damage {
        at: 656,
        byte: 2,
        fault: 656,
    },
    Damage {
        at: 672,
        byte: 1,
        fault: 672,
    },
    Damage {
        at: 680,
        byte: 0x48,
        fault: 680,
    },
    Damage {
        at: 695,
        byte: 1,
        fault: 688,
    },
    // its alignment, which no multiple of 8 needs to meet
    Damage {
        at: 704,
        byte: 3,
        fault: 704,
    },
    Damage {
        at: 704,
        byte: 16,
        fault: 704,
    },
    // `.rela.text` would overlap `.text`; the bytes between the two
    Damage {
        at: 744,
        byte: 0x68,
        fault: 744,
    },
    Damage {
        at: 109,
        byte: 1,
        fault: 109,
    },
    // the header of `.shstrtab`: its type, size and alignment
    Damage {
        at: 1172,
        byte: 1,
        fault: 1172,
    },
    Damage {
        at: 1200,
        byte: 0x63,
        fault: 1200,
    },
    Damage {
        at: 1217,
        byte: 1,
        fault: 1216,
    },
    // its first byte and the last name, and the bytes before the section header table
    Damage {
        at: 488,
        byte: 1,
        fault: 488,
    },
    Damage {
        at: 577,
        byte: 0x74,
        fault: 577,
    },
    Damage {
        at: 587,
        byte: 1,
        fault: 587,
    },
];

/// Whether the object that is read of bytes has them as its file.
fn is_read(alloc: Global, bytes: &[u8]) -> bool {
    match read_object(alloc, bytes) {
        Ok(o) => is_file(alloc, &o, bytes),
        Err(_) => false,
    }
}

/// The first wrong field of bytes.
fn fault_of(alloc: Global, bytes: &[u8]) -> Option<usize> {
    match read_object(alloc, bytes) {
        Err(ReadError::Fault(at)) => Some(at),
        _ => None,
    }
}

/// Where the file is damaged so that another field is the first wrong one.
fn other_fault(alloc: Global, damages: &[Damage]) -> Result<Option<usize>, Fail> {
    for damage in damages {
        let bytes = changed(alloc, &OBJECT, damage.at, damage.byte)?;
        if fault_of(alloc, bytes.as_slice()) != Some(damage.fault) {
            return Ok(Some(damage.at));
        }
    }
    Ok(None)
}

#[test]
fn the_file_is_read_and_none_that_is_damaged(rt: HostRuntime) -> Result<(), Fail> {
    let alloc = rt.alloc();
    assert!(rt; is_read(alloc, &OBJECT));
    assert_eq!(rt; other_fault(alloc, DAMAGES)?, None);
    assert!(rt; fault_of(alloc, part(0, 30)) == Some(24));
    Ok(())
}
