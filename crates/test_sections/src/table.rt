//! Whether a line table can be written.

ghost use Rattle.std.specs.Prelude.{IsTrue, All};
ghost use Rattle.dwarf_line.specs.Table.{Ascend, HasRows, IsSequence, IsName, IsNamed};

use dwarf_line::table::{FileEntry, LineTable, Name, Row, Sequence};

/// Whether a name has no zero byte.
fn is_name(name: &[u8]) -> bool
    ensures { IsTrue result → IsName name.now }
{
    for byte in name {
        if *byte == 0 {
            return false;
        }
    }
    true
}

/// Whether names have no zero byte.
pub(crate) fn are_names(names: &[Name]) -> bool
    ensures { IsTrue result → All IsName names.now }
{
    for name in names {
        if !is_name(name.as_slice()) {
            return false;
        }
    }
    true
}

/// Whether files have names without a zero byte.
pub(crate) fn are_named(files: &[FileEntry]) -> bool
    ensures { IsTrue result → All IsNamed files.now }
{
    for file in files {
        if !is_name(file.name.as_slice()) {
            return false;
        }
    }
    true
}

/// Whether addresses don't fall.
fn ascend(from: u64, rows: &[Row], end: u64) -> bool
    ensures { IsTrue result → Ascend from rows.now end }
{
    match rows {
        [] => from <= end,
        [row, rest @ ..] => from <= row.address && ascend(row.address, rest, end),
    }
}

/// Whether there is a row, and addresses don't fall.
fn has_rows(rows: &[Row], end: u64) -> bool
    ensures { IsTrue result → HasRows rows.now end }
{
    match rows {
        [] => false,
        [row, rest @ ..] => ascend(row.address, rest, end),
    }
}

/// Whether sequences can be written.
pub(crate) fn are_sequences(sequences: &[Sequence]) -> bool
    ensures { IsTrue result → All IsSequence sequences.now }
{
    for sequence in sequences {
        if !has_rows(sequence.rows.as_slice(), sequence.end) {
            return false;
        }
    }
    true
}
