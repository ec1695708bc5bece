//! Tables of symbols and of relocations by the System V gABI, as they are read: a section's symbol, a function `f`, a
//! weak function `w`, and `g`, which the file doesn't define; a call of `g`, and the address of `.text` less 4.

use crate::changed::changed;
use crate::objects::are_symbols;
use elf_object::constants::*;
use elf_object::relocations::{Relocation, write_relocations};
use elf_symbols::fault::SymbolsFault;
use elf_symbols::relocations::{RelocationsError, read_relocations};
use elf_symbols::symbols::{SymbolsError, read_symbols};
use std::alloc::Global;
use std::test::Fail;

/// The symbol table.
static TABLE: [u8; 120] = [
    0, 0, 0, 0, 0, 0, 0, 0, 0, 0, 0, 0, 0, 0, 0, 0, 0, 0, 0, 0, 0, 0, 0, 0, 0, 0, 0, 0, 3, 0, 1, 0,
    0, 0, 0, 0, 0, 0, 0, 0, 0, 0, 0, 0, 0, 0, 0, 0, 1, 0, 0, 0, 0x12, 0, 1, 0, 0, 0, 0, 0, 0, 0, 0,
    0, 0x2c, 0, 0, 0, 0, 0, 0, 0, 3, 0, 0, 0, 0x22, 0, 1, 0, 0x2c, 0, 0, 0, 0, 0, 0, 0, 4, 0, 0, 0,
    0, 0, 0, 0, 5, 0, 0, 0, 0x10, 0, 0, 0, 0, 0, 0, 0, 0, 0, 0, 0, 0, 0, 0, 0, 0, 0, 0, 0,
];
/// The table of the symbols' names.
static NAMES: [u8; 7] = *b"\0f\0w\0g\0";

/// A byte that becomes another, and the first wrong field then.
struct Damage {
    at: usize,
    byte: u8,
    fault: SymbolsFault,
}

/// Each kind of field of the symbol table, in the order in which they are judged.
static OF_TABLE: &[Damage] = &[
    // the null symbol
    Damage {
        at: 5,
        byte: 1,
        fault: SymbolsFault::Table(5),
    },
    Damage {
        at: 17,
        byte: 1,
        fault: SymbolsFault::Table(16),
    },
    // names: of a section, so that the next would share its bytes; one byte too far; of another symbol
    Damage {
        at: 24,
        byte: 1,
        fault: SymbolsFault::Table(48),
    },
    Damage {
        at: 48,
        byte: 2,
        fault: SymbolsFault::Table(48),
    },
    Damage {
        at: 72,
        byte: 1,
        fault: SymbolsFault::Table(72),
    },
    // no binding and no type; a local symbol behind a global one; a visibility
    Damage {
        at: 52,
        byte: 0x32,
        fault: SymbolsFault::Table(52),
    },
    Damage {
        at: 52,
        byte: 0x11,
        fault: SymbolsFault::Table(52),
    },
    Damage {
        at: 76,
        byte: 2,
        fault: SymbolsFault::Table(76),
    },
    Damage {
        at: 101,
        byte: 1,
        fault: SymbolsFault::Table(101),
    },
];

/// The bytes of the table of names.
static OF_NAMES: &[Damage] = &[
    Damage {
        at: 0,
        byte: 1,
        fault: SymbolsFault::Names(0),
    },
    // a name that goes on, one that is empty, and one that isn't closed
    Damage {
        at: 2,
        byte: 0x78,
        fault: SymbolsFault::Table(72),
    },
    Damage {
        at: 5,
        byte: 0,
        fault: SymbolsFault::Table(96),
    },
    Damage {
        at: 6,
        byte: 0x67,
        fault: SymbolsFault::Table(96),
    },
];

/// A front of the symbol table.
fn front(len: usize) -> &'static [u8] {
    if len <= TABLE.len() {
        &TABLE[..len]
    } else {
        &TABLE[..0]
    }
}

/// Whether the symbols that are read of tables have them as their own.
fn is_read(alloc: Global, table: &[u8], names: &[u8]) -> bool {
    match read_symbols(alloc, table, names) {
        Ok(symbols) => are_symbols(alloc, symbols.as_slice(), names, table),
        Err(_) => false,
    }
}

/// Whether this is the first wrong field of tables.
fn is_fault(alloc: Global, table: &[u8], names: &[u8], fault: SymbolsFault) -> bool {
    match read_symbols(alloc, table, names) {
        Err(SymbolsError::Fault(found)) => found == fault,
        _ => false,
    }
}

/// Where the symbol table is damaged so that another field is the first wrong one.
fn other_in_table(alloc: Global, damages: &[Damage]) -> Result<Option<usize>, Fail> {
    for damage in damages {
        let table = changed(alloc, &TABLE, damage.at, damage.byte)?;
        if !is_fault(alloc, table.as_slice(), &NAMES, damage.fault) {
            return Ok(Some(damage.at));
        }
    }
    Ok(None)
}

/// The same of the names.
fn other_in_names(alloc: Global, damages: &[Damage]) -> Result<Option<usize>, Fail> {
    for damage in damages {
        let names = changed(alloc, &NAMES, damage.at, damage.byte)?;
        if !is_fault(alloc, &TABLE, names.as_slice(), damage.fault) {
            return Ok(Some(damage.at));
        }
    }
    Ok(None)
}

#[test]
fn symbols_are_read_and_none_that_are_damaged(rt: HostRuntime) -> Result<(), Fail> {
    let alloc = rt.alloc();
    assert!(rt; is_read(alloc, &TABLE, &NAMES));
    assert_eq!(rt; other_in_table(alloc, OF_TABLE)?, None);
    assert_eq!(rt; other_in_names(alloc, OF_NAMES)?, None);
    Ok(())
}

#[test]
fn tables_of_symbols_are_whole(rt: HostRuntime) -> Result<(), Fail> {
    let alloc = rt.alloc();
    assert!(rt; is_read(alloc, front(24), &NAMES[..1]));
    assert!(rt; is_fault(alloc, front(119), &NAMES, SymbolsFault::Table(96)));
    assert!(rt; is_fault(alloc, front(30), &NAMES, SymbolsFault::Table(24)));
    assert!(rt; is_fault(alloc, front(10), &NAMES, SymbolsFault::Table(8)));
    assert!(rt; is_fault(alloc, front(72), &NAMES, SymbolsFault::Names(3)));
    assert!(rt; is_fault(alloc, front(24), &NAMES[..0], SymbolsFault::Names(0)));
    Ok(())
}

/// The bytes of the relocations.
static RELOCATIONS: [u8; 48] = [
    0x10, 0, 0, 0, 0, 0, 0, 0, 0x13, 0, 0, 0, 4, 0, 0, 0, 0, 0, 0, 0, 0, 0, 0, 0, 8, 0, 0, 0, 0, 0,
    0, 0, 2, 0, 0, 0, 1, 0, 0, 0, 0xfc, 0xff, 0xff, 0xff, 0xff, 0xff, 0xff, 0xff,
];

/// Whether these are the two relocations.
fn are_relocations(relocations: &[Relocation]) -> bool {
    let call = Relocation {
        offset: 0x10,
        symbol: 4,
        relocation_type: R_RISCV_CALL_PLT,
        addend: 0,
    };
    let address = Relocation {
        offset: 8,
        symbol: 1,
        relocation_type: R_RISCV_64,
        addend: 0xffff_ffff_ffff_fffc,
    };
    match relocations {
        [first, second] => *first == call && *second == address,
        _ => false,
    }
}

/// Whether the two relocations are read of bytes, and have them as their own.
fn are_read(alloc: Global, bytes: &[u8]) -> bool {
    let relocations = match read_relocations(alloc, bytes) {
        Ok(relocations) => relocations,
        Err(_) => return false,
    };
    if !are_relocations(relocations.as_slice()) {
        return false;
    }
    match write_relocations(alloc, relocations.as_slice()) {
        Ok(written) => written.as_slice() == bytes,
        Err(_) => false,
    }
}

/// Where the last relocation of bytes begins, if it isn't whole.
fn part_of(alloc: Global, bytes: &[u8]) -> Option<usize> {
    match read_relocations(alloc, bytes) {
        Err(RelocationsError::Fault(at)) => Some(at),
        _ => None,
    }
}

#[test]
fn relocations_are_read_if_they_are_whole(rt: HostRuntime) -> Result<(), Fail> {
    let alloc = rt.alloc();
    assert!(rt; are_read(alloc, &RELOCATIONS));
    assert!(rt; part_of(alloc, &RELOCATIONS[..47]) == Some(24));
    assert!(rt; part_of(alloc, &RELOCATIONS[..5]) == Some(0));
    Ok(())
}
