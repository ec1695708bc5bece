//! The section of a line number table that says where a prologue ends, written by hand from DWARF 5, sections 6.2.4
//! and 6.2.5.

ghost use Rattle.std.specs.Prelude.{◌<◌, ◌^◌, length, All, IsTrue};
ghost use Rattle.dwarf_line.specs.Table.{HasNames, IsSequence};
ghost use Rattle.prologue_lines.specs.Spelling.{spelling};

use crate::line_tables::{dirs_of, files_of};
use crate::table::{are_named, are_names, are_sequences};
use base_list::List;
use dwarf_line::table::{LineTable, Row, Sequence};
use elf_content::content::{Content, make_content};
use prologue_lines::laws::placed_lines_are_moved;
use prologue_lines::section::{line_pieces, line_size};
use std::alloc::{AllocError, Global};
use std::test::Fail;

/// Two functions: one with a prologue of 12 bytes and 36 bytes in all, and one without a prologue.
static SECTION: [u8; 110] = [
    0x6a, 0, 0, 0, 5, 0, 8, 0, 0x24, 0, 0, 0, 1, 1, 1, 0xfb, 14, 13, 0, 1, 1, 1, 1, 0, 0, 0, 1, 0,
    0, 1, 1, 1, 8, 1, b'/', b'd', 0, 2, 1, 8, 2, 15, 1, b't', b'.', b'c', 0, 0, 0, 9, 2, 0, 0, 0,
    0, 0, 0, 0, 0, 4, 0, 1, 2, 12, 10, 1, 5, 1, 2, 4, 3, 2, 1, 5, 0, 2, 4, 3, 0x7d, 1, 2, 0x10, 0,
    1, 1, 0, 9, 2, 0, 0, 0, 0, 0, 0, 0, 0, 4, 0, 3, 8, 1, 3, 1, 10, 1, 2, 4, 0, 1, 1,
];

/// Addresses, lines and columns of rows, and where their sequence ends. Their file is the unit's.
const SEQUENCES: &[(&[(u64, u32, u32)], u64)] = &[
    (&[(0, 1, 0), (12, 1, 0), (16, 3, 1), (20, 0, 0)], 36),
    (&[(36, 9, 0), (36, 10, 0)], 40),
];

/// Where addresses of code stand in the section, and which they are.
const ADDRESSES: &[(u64, u64)] = &[(51, 0), (88, 36)];

/// The table.
fn table_of(alloc: Global) -> Result<LineTable, AllocError> {
    let mut sequences = List::new(alloc);
    for (told, end) in SEQUENCES {
        let mut rows = List::new(alloc);
        for (address, line, column) in *told {
            rows.push(Row {
                address: *address,
                file: 0,
                line: *line,
                column: *column,
            })?;
        }
        sequences.push(Sequence { rows, end: *end })?;
    }
    Ok(LineTable {
        dirs: dirs_of(alloc, &[b"/d"])?,
        files: files_of(alloc, &[(b"t.c", 0)])?,
        sequences,
    })
}

/// Whether a table has a section.
fn has_section(t: &LineTable) -> bool
    ensures names { IsTrue result → HasNames t.now }
    ensures sequences { IsTrue result → All IsSequence t.now.sequences }
    ensures size { IsTrue result → length (spelling t.now) < 2 ^ 31 }
{
    if !are_names(t.dirs.as_slice()) || !are_named(t.files.as_slice()) {
        return false;
    }
    if !are_sequences(t.sequences.as_slice()) || line_size(t).is_none() {
        return false;
    }
    true
}

/// Whether a content is the wanted section with its addresses.
fn is_wanted(content: &Content) -> bool {
    let relocations = content.relocations.as_slice();
    if relocations.len() != ADDRESSES.len() {
        return false;
    }
    for (relocation, (offset, address)) in relocations.iter().zip(ADDRESSES) {
        if relocation.offset != *offset || relocation.addend != *address || relocation.symbol != 1 {
            return false;
        }
    }
    content.bytes.as_slice() == SECTION.as_slice()
}

#[test]
fn prologues_end_in_second_rows(rt: HostRuntime) -> Result<(), Fail> {
    placed_lines_are_moved();
    let alloc = rt.alloc();
    let table = table_of(alloc)?;
    if has_section(&table) {
        assert!(rt; line_size(&table) == Some(110));
        let pieces = line_pieces(alloc, 1, &table)?;
        assert!(rt; is_wanted(&make_content(alloc, pieces.as_slice())?));
    } else {
        assert!(rt; false);
    }
    Ok(())
}
