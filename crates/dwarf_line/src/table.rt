//! A line number table: directories, files, and sequences of rows.

use base_list::List;

/// A name, by its bytes.
pub type Name = List<u8>;
/// Names, in order.
pub type NameList = List<Name>;
/// Files, in order.
pub type FileEntries = List<FileEntry>;
/// Rows, in order.
pub type RowList = List<Row>;
/// Sequences, in order.
pub type Sequences = List<Sequence>;

/// A source file (DWARF 5 section 6.2.4).
#[derive(Debug, Drop)]
pub struct FileEntry {
    /// Its name, without a zero byte.
    pub name: Name,
    /// The index of its directory, from 0.
    pub dir: u32,
}

/// A row: the source position of the instructions from an address on (DWARF 5 section 6.2.2).
#[derive(Clone, Copy, Debug, PartialEq, Eq)]
pub struct Row {
    /// The address in bytes.
    pub address: u64,
    /// The number of the file, from 0.
    pub file: u32,
    /// The line, from 1; 0 for an instruction without a line.
    pub line: u32,
    /// The column, from 1; 0 for the line's beginning.
    pub column: u32,
}

/// Rows for contiguous instructions (DWARF 5 section 6.2.2).
#[derive(Debug, Drop)]
pub struct Sequence {
    /// The rows: at least one, with nondecreasing addresses.
    pub rows: RowList,
    /// The address after the last instruction, in bytes.
    pub end: u64,
}

/// A line number table.
#[derive(Debug, Drop)]
pub struct LineTable {
    /// The directories. The first is the unit's.
    pub dirs: NameList,
    /// The files. The first is the unit's.
    pub files: FileEntries,
    /// The sequences.
    pub sequences: Sequences,
}
