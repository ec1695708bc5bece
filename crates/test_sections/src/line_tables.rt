//! Line number tables written by hand from DWARF 5, sections 6.2.4 and 6.2.5, and the same with one byte changed.

use crate::changed::changed;
use crate::table::{are_named, are_names, are_sequences};
use base_list::List;
use dwarf_line::fault::LineError;
use dwarf_line::read::rows;
use dwarf_line::size::line_size;
use dwarf_line::table::{FileEntries, FileEntry, LineTable, NameList, Row, Sequence};
use dwarf_line::write::write_line;
use std::alloc::{AllocError, Global};
use std::test::Fail;

/// One file, one row.
static ONE: [u8; 74] = [
    0x46, 0, 0, 0, 5, 0, 8, 0, 0x29, 0, 0, 0, 1, 1, 1, 0xfb, 14, 13, 0, 1, 1, 1, 1, 0, 0, 0, 1, 0,
    0, 1, 1, 1, 8, 1, b'/', b'd', 0, 2, 1, 8, 2, 15, 2, b't', b'.', b'c', 0, 0, b't', b'.', b'c',
    0, 0, 0, 9, 2, 0, 0, 0, 0, 0, 0, 0, 0, 5, 1, 3, 2, 1, 2, 8, 0, 1, 1,
];

/// Two sequences. Line 0, an empty directory, a number of two bytes, a row like the one before, an end at the last
/// row's address, and the greatest address.
static TWO: [u8; 116] = [
    0x70, 0, 0, 0, 5, 0, 8, 0, 0x2b, 0, 0, 0, 1, 1, 1, 0xfb, 14, 13, 0, 1, 1, 1, 1, 0, 0, 0, 1, 0,
    0, 1, 1, 1, 8, 2, b'/', b'a', 0, 0, 2, 1, 8, 2, 15, 2, b'a', b'.', b'c', 0, 0, b'b', b'.',
    b'h', 0, 0xc8, 1, 0, 9, 2, 0, 0x10, 0, 0, 0, 0, 0, 0, 4, 0, 3, 0x7f, 1, 4, 1, 5, 5, 3, 0xc8, 1,
    1, 2, 8, 3, 0x7f, 1, 1, 2, 0, 0, 1, 1, 0, 9, 2, 0, 0, 0, 0, 0, 0, 0, 0, 1, 2, 0xff, 0xff, 0xff,
    0xff, 0xff, 0xff, 0xff, 0xff, 0xff, 1, 0, 1, 1,
];

/// A byte of a section that is changed, what it becomes, and the first wrong field's first byte: the section's length
/// where none is.
const DAMAGED_ONE: &[(usize, u8, usize)] = &[
    (0, 0x45, 0),
    (3, 1, 0),
    (5, 1, 4),
    (6, 4, 6),
    (7, 1, 7),
    (11, 1, 8),
    (15, 0xfa, 15),
    (29, 0, 29),
    (32, 15, 32),
    // More directories or files take in what follows
    (33, 2, 47),
    (33, 0x80, 72),
    (34, 0, 35),
    (42, 3, 8),
    (51, 1, 8),
    (54, 1, 54),
    (65, 0, 65),
    (66, 4, 66),
    (68, 0, 68),
    (69, 1, 70),
    (69, 0x80, 69),
    (71, 2, 71),
    (72, 2, 72),
    // Another number of bytes to advance
    (70, 1, 74),
];

/// The same for the other one.
const DAMAGED_TWO: &[(usize, u8, usize)] = &[
    // A number that isn't the shortest
    (54, 0, 53),
    // A register is set to the value that it has
    (67, 1, 67),
    (69, 0, 69),
    (74, 0, 74),
    (80, 0, 80),
    (87, 1, 86),
    // An opcode out of order
    (71, 5, 73),
    (79, 3, 81),
    (81, 2, 81),
    // A line below 0, and an address beyond the last
    (77, 0x7e, 76),
    (112, 2, 103),
    // An end without its advance
    (84, 0, 84),
    (88, 2, 88),
    (101, 0, 101),
];

/// Addresses, files, lines and columns of rows, and where their sequence ends.
type Rows = (&'static [(u64, u32, u32, u32)], u64);

const ROWS_ONE: &[Rows] = &[(&[(0, 1, 3, 1)], 8)];

const ROWS_TWO: &[Rows] = &[
    (
        &[
            (0x1000, 0, 0, 0),
            (0x1000, 1, 200, 5),
            (0x1008, 1, 199, 5),
            (0x1008, 1, 199, 5),
        ],
        0x1008,
    ),
    (&[(0, 1, 1, 0)], u64::MAX),
];

/// Whether the rows of a sequence are these.
fn are_rows(sequence: &Sequence, rows: &Rows) -> bool {
    let (told, end) = rows;
    let found = sequence.rows.as_slice();
    if sequence.end != *end || found.len() != told.len() {
        return false;
    }
    for (row, (address, file, line, column)) in found.iter().zip(*told) {
        let wanted = Row {
            address: *address,
            file: *file,
            line: *line,
            column: *column,
        };
        if *row != wanted {
            return false;
        }
    }
    true
}

/// Whether the sequences of a section are these.
fn are_read(alloc: Global, bytes: &[u8], wanted: &[Rows]) -> bool {
    match rows(alloc, bytes) {
        Err(_) => false,
        Ok(found) => {
            found.len() == wanted.len()
                && found
                    .as_slice()
                    .iter()
                    .zip(wanted)
                    .all(|(s, rows)| are_rows(s, rows))
        }
    }
}

/// Where a section's first wrong field is, and its length where none is.
fn fault(alloc: Global, bytes: &[u8]) -> Option<usize> {
    match rows(alloc, bytes) {
        Err(LineError::LineFault(at)) => Some(at),
        Err(LineError::Memory) => None,
        Ok(_) => Some(bytes.len()),
    }
}

/// The directories and files of the second, with their directories.
const DIRS: &[&[u8]] = &[b"/a", b""];

const FILES: &[(&[u8], u32)] = &[(b"a.c", 0), (b"b.h", 200)];

/// Directories of these names.
pub(crate) fn dirs_of(alloc: Global, names: &[&[u8]]) -> Result<NameList, AllocError> {
    let mut dirs = List::new(alloc);
    for name in names {
        dirs.push(List::from_slice(alloc, name)?)?;
    }
    Ok(dirs)
}

/// Files of these names and directories.
pub(crate) fn files_of(alloc: Global, named: &[(&[u8], u32)]) -> Result<FileEntries, AllocError> {
    let mut files = List::new(alloc);
    for (name, dir) in named {
        let name = List::from_slice(alloc, name)?;
        files.push(FileEntry { name, dir: *dir })?;
    }
    Ok(files)
}

/// Whether the section of a table is this one, and its size is as told.
fn is_section(alloc: Global, table: &LineTable, bytes: &[u8]) -> bool {
    if !are_names(table.dirs.as_slice()) || !are_named(table.files.as_slice()) {
        return false;
    }
    if !are_sequences(table.sequences.as_slice()) {
        return false;
    }
    let Some(size) = line_size(table) else {
        return false;
    };
    match write_line(alloc, table) {
        Ok(written) => written.as_slice() == bytes && bytes.len() == size as usize,
        Err(_) => false,
    }
}

/// Whether the section of directories and files and of the sequences of a section is that section.
fn is_written(alloc: Global, dirs: NameList, files: FileEntries, bytes: &[u8]) -> bool {
    match rows(alloc, bytes) {
        Ok(sequences) => is_section(
            alloc,
            &LineTable {
                dirs,
                files,
                sequences,
            },
            bytes,
        ),
        Err(_) => false,
    }
}

/// The first byte of a table of changes where the fault is another one.
fn other_fault(
    alloc: Global,
    bytes: &[u8],
    damaged: &[(usize, u8, usize)],
) -> Result<Option<usize>, Fail> {
    for (at, byte, wanted) in damaged {
        let bytes = changed(alloc, bytes, *at, *byte)?;
        if fault(alloc, &bytes) != Some(*wanted) {
            return Ok(Some(*at));
        }
    }
    Ok(None)
}

/// Where a section that ends too early has no fault at its start.
fn other_end(alloc: Global, bytes: &[u8]) -> Option<usize> {
    for end in 0..bytes.len() {
        if fault(alloc, &bytes[..end]) != Some(0) {
            return Some(end);
        }
    }
    None
}

/// Whether the section of the directories and files above and of the sequences of a section is that section.
fn is_written_again(alloc: Global, bytes: &[u8]) -> Result<bool, AllocError> {
    let dirs = dirs_of(alloc, DIRS)?;
    let files = files_of(alloc, FILES)?;
    Ok(is_written(alloc, dirs, files, bytes))
}

#[test]
fn tables_are_read_and_written(rt: HostRuntime) -> Result<(), Fail> {
    let alloc = rt.alloc();
    assert!(rt; are_read(alloc, &ONE, ROWS_ONE));
    assert!(rt; are_read(alloc, &TWO, ROWS_TWO));
    assert_eq!(rt; other_fault(alloc, &ONE, DAMAGED_ONE)?, None);
    assert_eq!(rt; other_fault(alloc, &TWO, DAMAGED_TWO)?, None);
    assert_eq!(rt; other_end(alloc, &ONE), None);
    assert!(rt; is_written_again(alloc, &TWO)?);
    Ok(())
}
