//! The size of a section in bytes.

ghost use Rattle.std.specs.Prelude.{◌≡◌, ◌+◌, ◌^◌, ◌≤◌, ◌<◌, ◌↔◌, length, All, IsNone, IfSome};
ghost use Rattle.std.specs.List.{flat_map};
ghost use Rattle.dwarf_line.specs.Table.{HasRows, IsSequence};
ghost use Rattle.dwarf_line.specs.Spelling;
ghost use Rattle.dwarf_line.specs.Spelling.{changing, set_file, set_column, advance_pc, advance_line};
ghost use Rattle.dwarf_line.specs.Spelling.{registers_at, sequence, program, text, tables, spelling};
ghost use Rattle.dwarf_base.specs.Size.{capped};

use crate::constants::*;
use crate::table::{FileEntry, LineTable, Name, Row, Sequence};
use dwarf_base::leb::{sleb, uleb};
use dwarf_base::limits::SECTION_LIMIT;

/// The bytes of the header that its length doesn't count.
const HEADER: usize = 12;
/// The bytes of the opcode that sets the address.
const SET_ADDRESS: usize = 11;
/// The bytes of the opcode that ends a sequence.
const END_SEQUENCE: usize = 3;

/// The size of a table's section in bytes, and `None` if and only if it is 2^31 or more. It takes no memory.
pub fn line_size(t: &LineTable) -> Option<u32>
    requires { All IsSequence t.now.sequences }
    ensures none { IsNone result ↔ (2 ^ 31 ≤ length (spelling t.now)) }
    ensures size { IfSome result (λ size. size ≡ length (spelling t.now)) }
{
    let size = section_len(t);
    if size < SECTION_LIMIT {
        Some(size as u32)
    } else {
        None
    }
}

/// The bytes of the section.
pub fn section_len(t: &LineTable) -> usize
    requires { All IsSequence t.now.sequences }
    ensures { result ≡ capped (length (spelling t.now)) }
{
    HEADER
        .saturating_add(tables_len(t))
        .saturating_add(program_len(t.sequences.as_slice()))
}

/// The bytes that the header's length counts.
#[tactic(auto, unfolding(crate::specs::Spelling::tables))]
pub fn tables_len(t: &LineTable) -> usize
    ensures { result ≡ capped (length (tables t.now)) }
{
    let fixed = INSTRUCTION_FIELDS.len() + DIRECTORY_FORMAT.len() + FILE_FORMAT.len();
    let counts = uleb(t.dirs.len() as u64).len() + uleb(t.files.len() as u64).len();
    (fixed + counts)
        .saturating_add(dirs_len(t.dirs.as_slice()))
        .saturating_add(files_len(t.files.as_slice()))
}

/// The bytes of the directories.
fn dirs_len(dirs: &[Name]) -> usize
    ensures { result ≡ capped (length (flat_map text dirs.now)) }
{
    let mut len: usize = 0;
    for dir in dirs {
        len = len.saturating_add(dir.len()).saturating_add(1);
    }
    len
}

/// The bytes of the files.
fn files_len(files: &[FileEntry]) -> usize
    ensures { result ≡ capped (length (flat_map Spelling.file files.now)) }
{
    let mut len: usize = 0;
    for file in files {
        len = len
            .saturating_add(file.name.len())
            .saturating_add(1 + uleb(file.dir as u64).len());
    }
    len
}

/// The bytes of the line number program.
fn program_len(sequences: &[Sequence]) -> usize
    requires { All IsSequence sequences.now }
    ensures { result ≡ capped (length (program sequences.now)) }
{
    let mut len: usize = 0;
    for sequence in sequences {
        len = len.saturating_add(sequence_len(sequence.rows.as_slice(), sequence.end));
    }
    len
}

/// The bytes of a sequence.
fn sequence_len(rows: &[Row], end: u64) -> usize
    requires { HasRows rows.now end }
    ensures { result ≡ capped (length (sequence (record { rows = rows.now; end = end }))) }
{
    let mut before = registers(rows[0].address);
    let mut len = SET_ADDRESS;
    for row in rows {
        len = len.saturating_add(row_len(&before, row));
        before = *row;
    }
    len.saturating_add(1 + uleb(end - before.address).len() + END_SEQUENCE)
}

/// The state machine's registers at a sequence's start (DWARF 5 section 6.2.2).
pub fn registers(address: u64) -> Row
    ensures { result ≡ registers_at address }
{
    Row {
        address,
        file: 1,
        line: 1,
        column: 0,
    }
}

/// The bytes of a row after another.
#[tactic(auto, unfolding(crate::specs::Spelling::row))]
fn row_len(before: &Row, row: &Row) -> usize
    requires { before.now.address ≤ row.now.address }
    ensures exact { result ≡ length (Spelling.row before.now row.now) }
    ensures within { result ≤ 45 }
{
    let file = file_len(before.file, row.file);
    let column = column_len(before.column, row.column);
    let address = address_len(before.address, row.address);
    let line = line_len(before.line, row.line);
    file + column + address + line + 1
}

/// The bytes of a change of the file.
fn file_len(before: u32, file: u32) -> usize
    ensures exact { result ≡ length (changing before file (set_file file)) }
    ensures within { result ≤ 11 }
{
    if file == before {
        0
    } else {
        1 + uleb(file as u64).len()
    }
}

/// The bytes of a change of the column.
fn column_len(before: u32, column: u32) -> usize
    ensures exact { result ≡ length (changing before column (set_column column)) }
    ensures within { result ≤ 11 }
{
    if column == before {
        0
    } else {
        1 + uleb(column as u64).len()
    }
}

/// The bytes of an advance of the address.
fn address_len(before: u64, address: u64) -> usize
    requires { before ≤ address }
    ensures exact { result ≡ length (changing before address (advance_pc before address)) }
    ensures within { result ≤ 11 }
{
    if address == before {
        0
    } else {
        1 + uleb(address - before).len()
    }
}

/// The bytes of an advance of the line.
fn line_len(before: u32, line: u32) -> usize
    ensures exact { result ≡ length (changing before line (advance_line before line)) }
    ensures within { result ≤ 11 }
{
    if line == before {
        0
    } else {
        1 + sleb(line as i64 - before as i64).len()
    }
}
