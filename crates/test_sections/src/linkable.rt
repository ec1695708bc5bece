//! The object of two functions that a linker places, section by section: two linkers and eu-elflint take an object with
//! these sections, and llvm-dwarfdump finds no fault in it, nor in what they make of it.

use crate::linkable_tables::{RANGES, are_entries, are_frames, are_rows, tables_of};
use base_list::List;
use elf_object::object::{Object, Section};
use elf_object::read::read_object;
use elf_object::relocations::Relocation;
use elf_object::symbols::Symbol;
use elf_symbols::relocations::read_relocations;
use elf_symbols::symbols::read_symbols;
use linkable_command::object::linkable;
use linkable_command::tables::DebugTables;
use listing_text::output::{
    ItemLine, Line, Lines, ListedBlock, ListedFunction, ListedFunctions, Output,
};
use mir_func::block::Block;
use mir_func::func::Func;
use read_program::program::read_program;
use std::alloc::{AllocError, Global};
use std::test::Fail;

/// `f` with the code at which a linker fills in addresses, and `h`.
const TEXT: &str = "\
---
name: f
body: |
  bb.0:
    $x18 = LUI target-flags(riscv-hi) @table + 8
    PseudoCALL @g, csr_ilp32_lp64, implicit-def dead $x1, implicit $x10, implicit-def $x10
    $x10 = LD $x18, target-flags(riscv-lo) @table + 8
    PseudoRET implicit $x10
...
---
name: h
body: |
  bb.0:
    PseudoRET
...
";

/// The first address of each function, the one behind it, and those of its lines.
const ADDRESSES: &[(u32, u32, &[u32])] = &[(0, 44, &[12, 16, 24, 40]), (44, 48, &[44])];

/// The code, as GNU as writes it.
static CODE: [u8; 48] = [
    0x13, 1, 1, 0xff, 0x23, 0x30, 0x11, 0, 0x23, 0x34, 0x21, 1, 0x37, 9, 0, 0, 0x97, 0, 0, 0, 0xe7,
    0x80, 0, 0, 3, 0x35, 0x89, 0, 0x83, 0x30, 1, 0, 3, 0x39, 0x81, 0, 0x13, 1, 1, 1, 0x67, 0x80, 0,
    0, 0x67, 0x80, 0, 0,
];

static DECLARATIONS: [u8; 56] = [
    1, 0x11, 1, 0x13, 5, 3, 8, 0x1b, 8, 0x10, 0x17, 0x11, 1, 0x12, 6, 0x8c, 1, 0x17, 0x74, 0x17, 0,
    0, 2, 0x24, 0, 3, 8, 0xb, 0xb, 0x3e, 0xb, 0, 0, 3, 0x2e, 1, 3, 8, 0x11, 1, 0x12, 6, 0, 0, 4, 5,
    0, 3, 8, 0x49, 0x13, 2, 0x22, 0, 0, 0,
];

static ENTRIES: [u8; 95] = [
    0x5b, 0, 0, 0, 5, 0, 1, 8, 0, 0, 0, 0, 1, 0xc, 0, 0x74, 0x2e, 0x63, 0, 0x2f, 0x64, 0, 0, 0, 0,
    0, 0, 0, 0, 0, 0, 0, 0, 0, 0x30, 0, 0, 0, 0, 0, 0, 0, 0, 0, 0, 0, 2, 0x6c, 0x6f, 0x6e, 0x67, 0,
    8, 5, 3, 0x66, 0, 0, 0, 0, 0, 0, 0, 0, 0, 0x2c, 0, 0, 0, 4, 0x78, 0, 0x2e, 0, 0, 0, 0, 0, 3,
    0x68, 0, 0, 0, 0, 0, 0, 0, 0, 0, 4, 0, 0, 0, 0, 0,
];

static ROWS: [u8; 74] = [
    0x46, 0, 0, 0, 5, 0, 8, 0, 0x29, 0, 0, 0, 1, 1, 1, 0xfb, 14, 13, 0, 1, 1, 1, 1, 0, 0, 0, 1, 0,
    0, 1, 1, 1, 8, 1, b'/', b'd', 0, 2, 1, 8, 2, 15, 2, b't', b'.', b'c', 0, 0, b't', b'.', b'c',
    0, 0, 0, 9, 2, 0, 0, 0, 0, 0, 0, 0, 0, 5, 1, 3, 2, 1, 2, 0x30, 0, 1, 1,
];

static LISTS: [u8; 22] = [
    0x12, 0, 0, 0, 5, 0, 8, 0, 1, 0, 0, 0, 4, 0, 0, 0, 4, 0, 0x2c, 1, 0x5a, 0,
];

static FRAMES: [u8; 112] = [
    0x2c, 0, 0, 0, 0xff, 0xff, 0xff, 0xff, 4, 0, 8, 0, 4, 0x78, 1, 0xc, 2, 0, 7, 5, 7, 6, 7, 7, 7,
    0xa, 7, 0xb, 7, 0xc, 7, 0xd, 7, 0xe, 7, 0xf, 7, 0x10, 7, 0x11, 7, 0x1c, 7, 0x1d, 7, 0x1e, 7,
    0x1f, 0x24, 0, 0, 0, 0, 0, 0, 0, 0, 0, 0, 0, 0, 0, 0, 0, 0x2c, 0, 0, 0, 0, 0, 0, 0, 0x41, 0xe,
    0x10, 0x42, 0x81, 2, 0x92, 1, 0x47, 0xe, 0, 0xc1, 0xd2, 0, 0, 0, 0x14, 0, 0, 0, 0, 0, 0, 0, 0,
    0, 0, 0, 0, 0, 0, 0, 4, 0, 0, 0, 0, 0, 0, 0,
];

/// The relocations of the code: their offsets, symbols, types and addends.
const OF_CODE: &[(u64, u32, u32, u64)] = &[(12, 10, 26, 8), (16, 11, 19, 0), (24, 10, 27, 8)];

const OF_ENTRIES: &[(u64, u32, u32, u64)] = &[
    (8, 2, 1, 0),
    (22, 4, 1, 0),
    (26, 1, 2, 0),
    (38, 5, 1, 12),
    (42, 7, 1, 12),
    (57, 1, 2, 0),
    (81, 1, 2, 44),
];

const OF_ROWS: &[(u64, u32, u32, u64)] = &[(56, 1, 2, 0)];

const OF_FRAMES: &[(u64, u32, u32, u64)] = &[
    (52, 6, 1, 0),
    (56, 1, 2, 0),
    (92, 6, 1, 0),
    (96, 1, 2, 44),
];

/// The symbols: names, sections, values and sizes.
const SYMBOLS: &[(&[u8], u16, u64, u64)] = &[
    (b"", 1, 0, 0),
    (b"", 2, 0, 0),
    (b"", 3, 0, 0),
    (b"", 4, 0, 0),
    (b"", 5, 0, 0),
    (b"", 6, 0, 0),
    (b"", 7, 0, 0),
    (b"f", 1, 0, 44),
    (b"h", 1, 44, 4),
    (b"table", 0, 0, 0),
    (b"g", 0, 0, 0),
];

/// The lines of a block at these addresses.
fn lines_of(alloc: Global, block: &Block, addresses: &[u32]) -> Result<Lines, AllocError> {
    let mut lines = Lines::new(alloc);
    for (item, address) in block.items.as_slice().iter().zip(addresses) {
        lines.push(Line::Item(ItemLine {
            address: Some(*address),
            item: item.copy()?,
        }))?;
    }
    Ok(lines)
}

/// A function of one block, with its lines at these addresses.
fn listed(
    alloc: Global,
    f: &Func,
    low: u32,
    high: u32,
    addresses: &[u32],
) -> Result<ListedFunction, AllocError> {
    let mut blocks = List::new(alloc);
    for block in f.blocks.as_slice() {
        blocks.push(ListedBlock {
            id: block.id,
            lines: lines_of(alloc, block, addresses)?,
        })?;
    }
    Ok(ListedFunction {
        name: f.name.copy()?,
        low,
        high,
        objects: List::new(alloc),
        variables: List::new(alloc),
        substitutions: List::new(alloc),
        prologue: List::new(alloc),
        blocks,
    })
}

/// The functions of the text.
fn functions_of(alloc: Global) -> Result<ListedFunctions, Fail> {
    if 1_000 < TEXT.len() {
        return Err(Fail::from("a long text"));
    }
    let program = read_program(alloc, true, TEXT.as_bytes())?;
    let mut functions = List::new(alloc);
    for (parsed, (low, high, addresses)) in program.functions.as_slice().iter().zip(ADDRESSES) {
        functions.push(listed(alloc, &parsed.func, *low, *high, addresses)?)?;
    }
    Ok(functions)
}

/// Their output. Its other sections aren't taken into the object.
fn output_of(alloc: Global) -> Result<Output, Fail> {
    let text = List::from_slice(alloc, &CODE)?;
    let abbreviations = List::from_slice(alloc, &DECLARATIONS)?;
    let functions = functions_of(alloc)?;
    Ok(Output {
        text,
        abbreviations,
        info: List::new(alloc),
        rows: List::new(alloc),
        loclists: List::new(alloc),
        frame: None,
        ranges: None,
        functions,
    })
}

/// The object of an output and of tables, for doubles in registers.
fn object_of(alloc: Global, output: Output, t: &DebugTables) -> Result<Object, Fail> {
    let are = are_entries(alloc, t.entries.as_slice())?;
    if !are || !are_rows(&t.rows) || !are_frames(&t.frames) {
        return Err(Fail::from("tables that can't be written"));
    }
    let lists = List::from_slice(alloc, &LISTS)?;
    let file = linkable(alloc, 4, output, lists, t)?;
    Ok(read_object(alloc, file.as_slice())?)
}

/// Whether a section has this name and these bytes, and no relocations are in it.
fn is_content(section: &Section, name: &[u8], bytes: &[u8]) -> bool {
    section.name.as_slice() == name
        && section.section_type == 1
        && section.link == 0
        && section.info == 0
        && section.bytes.as_slice() == bytes
}

/// Whether relocations are these.
fn are_relocations(found: &[Relocation], wanted: &[(u64, u32, u32, u64)]) -> bool {
    if found.len() != wanted.len() {
        return false;
    }
    for (relocation, (offset, symbol, kind, addend)) in found.iter().zip(wanted) {
        if relocation.offset != *offset
            || relocation.symbol != *symbol
            || relocation.relocation_type != *kind
            || relocation.addend != *addend
        {
            return false;
        }
    }
    true
}

/// Whether a section of this name has these relocations of the section with an index.
fn is_relocated(
    alloc: Global,
    section: &Section,
    name: &[u8],
    index: u32,
    wanted: &[(u64, u32, u32, u64)],
) -> bool {
    if section.name.as_slice() != name || section.link != 13 || section.info != index {
        return false;
    }
    match read_relocations(alloc, section.bytes.as_slice()) {
        Ok(found) => are_relocations(found.as_slice(), wanted),
        Err(_) => false,
    }
}

/// Whether a symbol has this name, section, value and size.
fn is_symbol(symbol: &Symbol, wanted: &(&[u8], u16, u64, u64)) -> bool {
    let (name, section, value, size) = *wanted;
    symbol.name.as_slice() == name
        && symbol.section == section
        && symbol.value == value
        && symbol.size == size
}

/// Whether the symbols of a table are the wanted ones, and the first that isn't local follows those of the sections.
fn is_table(alloc: Global, table: &Section, names: &Section) -> bool {
    if table.link != 14 || table.info != 8 {
        return false;
    }
    match read_symbols(alloc, table.bytes.as_slice(), names.bytes.as_slice()) {
        Err(_) => false,
        Ok(found) => {
            found.len() == SYMBOLS.len()
                && found
                    .as_slice()
                    .iter()
                    .zip(SYMBOLS)
                    .all(|(symbol, wanted)| is_symbol(symbol, wanted))
        }
    }
}

/// Whether sections are those of relocations, that of the stack, and the symbols.
fn are_behind(alloc: Global, sections: &[Section]) -> bool {
    match sections {
        [code, entries, rows, frames, stack, table, names] => {
            is_relocated(alloc, code, b".rela.text", 1, OF_CODE)
                && is_relocated(alloc, entries, b".rela.debug_info", 3, OF_ENTRIES)
                && is_relocated(alloc, rows, b".rela.debug_line", 4, OF_ROWS)
                && is_relocated(alloc, frames, b".rela.debug_frame", 6, OF_FRAMES)
                && is_content(stack, b".note.GNU-stack", b"")
                && is_table(alloc, table, names)
        }
        _ => false,
    }
}

/// Whether sections are those of the object.
fn are_sections(alloc: Global, sections: &[Section]) -> bool {
    match sections {
        [
            code,
            declarations,
            entries,
            rows,
            lists,
            frames,
            ranges,
            rest @ ..,
        ] => {
            is_content(code, b".text", &CODE)
                && is_content(declarations, b".debug_abbrev", &DECLARATIONS)
                && is_content(entries, b".debug_info", &ENTRIES)
                && is_content(rows, b".debug_line", &ROWS)
                && is_content(lists, b".debug_loclists", &LISTS)
                && is_content(frames, b".debug_frame", &FRAMES)
                && is_content(ranges, b".debug_rnglists", &RANGES)
                && are_behind(alloc, rest)
        }
        _ => false,
    }
}

#[test]
fn objects_are_such_as_linkers_take(rt: HostRuntime) -> Result<(), Fail> {
    let alloc = rt.alloc();
    let tables = tables_of(alloc)?;
    let object = object_of(alloc, output_of(alloc)?, &tables)?;
    assert!(rt; object.flags == 4);
    assert!(rt; are_sections(alloc, object.sections.as_slice()));
    Ok(())
}
