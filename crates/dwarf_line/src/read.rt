//! The reader of a section, from the left.

ghost use Rattle.std.specs.Prelude.{◌≡◌, ◌+◌, ◌^◌, ◌<◌, [], ◌-◌, length, IfOk, IsErrOf, MatchResult, ℕ};
ghost use Rattle.std.specs.Prelude.{List, true};
ghost use Rattle.std.specs.Int.{w16, w32, w64};
ghost use Rattle.dwarf_line.specs.Fields.{constants_at, number_at, uleb_at, advanced_at, line_at, behind_text};
ghost use Rattle.dwarf_line.specs.FirstFault.{behind_dirs, behind_files, behind_tables, behind_header, register_at};
ghost use Rattle.dwarf_line.specs.FirstFault.{advance_at, copied_at, ended_at, closed_at, group_at, start_at};
ghost use Rattle.dwarf_line.specs.FirstFault.{Rows, RowsFault, Program, ProgramFault, SectionFault};
ghost use Rattle.dwarf_line.specs.FirstFault.{FirstFault, IsSection};
ghost use Rattle.dwarf_line.specs.Spelling.{registers_at};
ghost use Rattle.dwarf_line.specs.steps.Gives.{Gives, Faults, Reads};
ghost use Rattle.dwarf_line.specs.declared.table.LineTable.{LineTable};
ghost use Rattle.dwarf_line.specs.Standard;

use crate::constants::*;
use crate::fault::LineError;
use crate::size::registers;
use crate::table::{LineTable, Row, RowList, Sequence, Sequences};
use base_list::List;
use dwarf_base::constants::{ADDRESS_SIZE, SEGMENT_SELECTOR_SIZE, VERSION};
use dwarf_base::front::{split_sleb, split_u32, split_uleb};
use std::alloc::{AllocError, AllocFailed, Global};

/// The sequences of a section `.debug_line`, as `write_line` writes it (DWARF 5 sections 6.2.4 and 6.2.5). Special
/// opcodes aren't accepted, and files and directories are skipped. It takes memory for the rows alone, and reads each
/// byte a bounded number of times. The error is the first wrong field, or out of memory.
pub fn rows(alloc: Global, bytes: &[u8]) -> Result<Sequences, LineError>
    // What is read is the section of a table with these sequences.
    ensures found { IfOk result (λ sequences. (t : LineTable) × IsSection bytes.now t × (t.sequences ≡ sequences)) }
    // What is the section of a table is read, unless memory runs out.
    ensures only { (t : LineTable) → IsSection bytes.now t
        → MatchResult result (λ sequences. sequences ≡ t.sequences) (λ e. e ≡ LineError.Memory) }
    // Of anything else it is told where the first wrong field is.
    ensures fault { (at : ℕ) → IsErrOf result (LineError.LineFault at) → FirstFault bytes.now at }
{
    match section(alloc, bytes) {
        Ok(sequences) => Ok(sequences),
        Err(ReadError::Left(left)) => Err(LineError::LineFault(bytes.len().saturating_sub(left))),
        Err(ReadError::Memory) => Err(LineError::Memory),
    }
}

/// Two tables with one section have the same sequences.
pub fn one_reading()
    ensures { (bytes : List ℕ) (a b : LineTable) → IsSection bytes a → IsSection bytes b → a.sequences ≡ b.sequences }
{}

/// A reader's error within a section.
#[derive(Debug, Drop)]
enum ReadError {
    /// A field is wrong: this number of bytes is left from its first one on.
    Left(usize),
    /// Memory ran out.
    Memory,
}

impl From<AllocError> for ReadError {
    ghost use Rattle.dwarf_line.specs.declared.read.ReadError.TheVariants.{Memory};

    ghost from_gives = { λ _ e. e ≡ Memory };

    fn from(_error: AllocError) -> ReadError {
        ReadError::Memory
    }
}

/// The address after the opcodes of a row.
#[derive(Clone, Copy, Debug, PartialEq, Eq)]
struct Advance {
    /// The address.
    address: u64,
    /// The number of bytes left from the operand on, if the address was advanced.
    operand: Option<usize>,
}

/// The result of the opcodes up to a copy or an end.
#[derive(Clone, Copy, Debug, PartialEq, Eq)]
enum Group {
    /// A row.
    Copied(Row),
    /// The end of a sequence: the address after its last instruction.
    Ended(u64),
}

/// The bytes after fields of one byte with a fixed value each.
fn constants<'a>(bytes: &'a [u8], fields: &[u8]) -> Result<&'a [u8], ReadError>
    ensures { Gives (λ x. x.now) result (constants_at fields.now bytes.now) }
{
    let mut rest = bytes;
    for field in fields {
        match rest {
            [] => return Err(ReadError::Left(0)),
            [byte, after @ ..] => {
                if *byte != *field {
                    return Err(ReadError::Left(rest.len()));
                }
                rest = after;
            }
        }
    }
    Ok(rest)
}

/// A number of two bytes, and the bytes after it.
fn u16_at(bytes: &[u8]) -> Result<(u16, &[u8]), ReadError>
    ensures { Gives (λ x. (x.0, x.1.now)) result (number_at w16 bytes.now) }
{
    if bytes.len() < 2 {
        return Err(ReadError::Left(bytes.len()));
    }
    let (front, rest) = bytes.split_at(2);
    Ok((u16::from_le_bytes([front[0], front[1]]), rest))
}

/// A number of four bytes, and the bytes after it.
fn u32_at(bytes: &[u8]) -> Result<(u32, &[u8]), ReadError>
    ensures { Gives (λ x. (x.0, x.1.now)) result (number_at w32 bytes.now) }
{
    match split_u32(bytes) {
        Some(read) => Ok(read),
        None => Err(ReadError::Left(bytes.len())),
    }
}

/// A number of eight bytes, and the bytes after it.
fn u64_at(bytes: &[u8]) -> Result<(u64, &[u8]), ReadError>
    ensures { Gives (λ x. (x.0, x.1.now)) result (number_at w64 bytes.now) }
{
    if bytes.len() < 8 {
        return Err(ReadError::Left(bytes.len()));
    }
    let (front, rest) = bytes.split_at(8);
    let number = u64::from_le_bytes([
        front[0], front[1], front[2], front[3], front[4], front[5], front[6], front[7],
    ]);
    Ok((number, rest))
}

/// An unsigned LEB128 number of 64 bits, and the bytes after it.
fn count_at(bytes: &[u8]) -> Result<(u64, &[u8]), ReadError>
    ensures { Gives (λ x. (x.0, x.1.now)) result (uleb_at (2 ^ 64) bytes.now) }
{
    match split_uleb(bytes) {
        Some((n, rest)) => Ok((n, rest)),
        None => Err(ReadError::Left(bytes.len())),
    }
}

/// An unsigned LEB128 number of 32 bits, and the bytes after it.
fn small_at(bytes: &[u8]) -> Result<(u32, &[u8]), ReadError>
    ensures { Gives (λ x. (x.0, x.1.now)) result (uleb_at (2 ^ 32) bytes.now) }
{
    match split_uleb(bytes) {
        Some((n, rest)) => {
            if n <= u32::MAX as u64 {
                Ok((n as u32, rest))
            } else {
                Err(ReadError::Left(bytes.len()))
            }
        }
        None => Err(ReadError::Left(bytes.len())),
    }
}

/// The address after an advance, and the bytes after the operand.
fn advanced(from: u64, bytes: &[u8]) -> Result<(u64, &[u8]), ReadError>
    ensures { Gives (λ x. (x.0, x.1.now)) result (advanced_at from bytes.now) }
{
    match split_uleb(bytes) {
        Some((by, rest)) => {
            if by <= u64::MAX - from {
                Ok((from + by, rest))
            } else {
                Err(ReadError::Left(bytes.len()))
            }
        }
        None => Err(ReadError::Left(bytes.len())),
    }
}

/// The line after an advance, and the bytes after the operand.
fn line(from: u32, bytes: &[u8]) -> Result<(u32, &[u8]), ReadError>
    ensures { Gives (λ x. (x.0, x.1.now)) result (line_at from bytes.now) }
{
    match split_sleb(bytes) {
        Some((by, rest)) => {
            if -(from as i64) <= by && by <= u32::MAX as i64 - from as i64 {
                Ok(((from as i64 + by) as u32, rest))
            } else {
                Err(ReadError::Left(bytes.len()))
            }
        }
        None => Err(ReadError::Left(bytes.len())),
    }
}

/// The bytes after a string.
fn after_text(bytes: &[u8]) -> Result<&[u8], ReadError>
    ensures { Gives (λ x. x.now) result (behind_text bytes.now) }
{
    let mut rest = bytes;
    while let [byte, after @ ..] = rest {
        rest = after;
        if *byte == 0 {
            return Ok(rest);
        }
    }
    Err(ReadError::Left(bytes.len()))
}

/// The bytes after this number of directories.
fn after_dirs(count: u64, bytes: &[u8]) -> Result<&[u8], ReadError>
    ensures { Gives (λ x. x.now) result (behind_dirs count bytes.now) }
{
    let mut rest = bytes;
    for _ in 0..count {
        rest = after_text(rest)?;
    }
    Ok(rest)
}

/// The bytes after this number of files.
fn after_files(count: u64, bytes: &[u8]) -> Result<&[u8], ReadError>
    ensures { Gives (λ x. x.now) result (behind_files count bytes.now) }
{
    let mut rest = bytes;
    for _ in 0..count {
        let name = after_text(rest)?;
        let (_, after) = count_at(name)?;
        rest = after;
    }
    Ok(rest)
}

/// The bytes after the tables.
#[tactic(auto, unfolding(crate::specs::FirstFault::behind_tables))]
fn after_tables(bytes: &[u8]) -> Result<&[u8], ReadError>
    ensures { Gives (λ x. x.now) result (behind_tables bytes.now) }
{
    let start = constants(bytes, &INSTRUCTION_FIELDS)?;
    let directories = constants(start, &DIRECTORY_FORMAT)?;
    let (dir_count, dirs) = count_at(directories)?;
    let files = after_dirs(dir_count, dirs)?;
    let formats = constants(files, &FILE_FORMAT)?;
    let (file_count, entries) = count_at(formats)?;
    after_files(file_count, entries)
}

/// The bytes after the header: the line number program.
#[tactic(auto, unfolding(crate::specs::FirstFault::behind_header))]
fn after_header(bytes: &[u8]) -> Result<&[u8], ReadError>
    ensures { Gives (λ x. x.now) result (behind_header bytes.now) }
{
    let (length, start) = u32_at(bytes)?;
    if length as usize != start.len() || length >= 0xffff_fff0 {
        return Err(ReadError::Left(bytes.len()));
    }
    let (version, sizes) = u16_at(start)?;
    if version != VERSION {
        return Err(ReadError::Left(start.len()));
    }
    let before = constants(sizes, &[ADDRESS_SIZE, SEGMENT_SELECTOR_SIZE])?;
    let (header_length, tables) = u32_at(before)?;
    let program = after_tables(tables)?;
    if program.len() > tables.len() || header_length as usize != tables.len() - program.len() {
        return Err(ReadError::Left(before.len()));
    }
    Ok(program)
}

/// The file after an opcode that may set it, and the bytes after that.
#[tactic(auto, unfolding(crate::specs::FirstFault::register_at))]
fn file_at(before: u32, bytes: &[u8]) -> Result<(u32, &[u8]), ReadError>
    ensures { Gives (λ x. (x.0, x.1.now)) result
        (register_at Standard.DW_LNS_set_file (uleb_at (2 ^ 32)) before bytes.now) }
{
    match bytes {
        [DW_LNS_set_file, operand @ ..] => {
            let (file, rest) = small_at(operand)?;
            if file == before {
                return Err(ReadError::Left(operand.len()));
            }
            Ok((file, rest))
        }
        _ => Ok((before, bytes)),
    }
}

/// The column after an opcode that may set it, and the bytes after that.
#[tactic(auto, unfolding(crate::specs::FirstFault::register_at))]
fn column_at(before: u32, bytes: &[u8]) -> Result<(u32, &[u8]), ReadError>
    ensures { Gives (λ x. (x.0, x.1.now)) result
        (register_at Standard.DW_LNS_set_column (uleb_at (2 ^ 32)) before bytes.now) }
{
    match bytes {
        [DW_LNS_set_column, operand @ ..] => {
            let (column, rest) = small_at(operand)?;
            if column == before {
                return Err(ReadError::Left(operand.len()));
            }
            Ok((column, rest))
        }
        _ => Ok((before, bytes)),
    }
}

/// The line after an opcode that may advance it, and the bytes after that.
#[tactic(auto, unfolding(crate::specs::FirstFault::register_at))]
fn new_line_at(before: u32, bytes: &[u8]) -> Result<(u32, &[u8]), ReadError>
    ensures { Gives (λ x. (x.0, x.1.now)) result
        (register_at Standard.DW_LNS_advance_line (line_at before) before bytes.now) }
{
    match bytes {
        [DW_LNS_advance_line, operand @ ..] => {
            let (new, rest) = line(before, operand)?;
            if new == before {
                return Err(ReadError::Left(operand.len()));
            }
            Ok((new, rest))
        }
        _ => Ok((before, bytes)),
    }
}

/// The address after an opcode that may advance it, and the bytes after that. It doesn't advance before a sequence's
/// first row.
#[tactic(auto, unfolding(crate::specs::FirstFault::advance_at))]
fn address_at(first: bool, from: u64, bytes: &[u8]) -> Result<(Advance, &[u8]), ReadError>
    ensures { Gives (λ x. (x.0, x.1.now)) result (advance_at first from bytes.now) }
{
    let stays = Advance {
        address: from,
        operand: None,
    };
    if first {
        return Ok((stays, bytes));
    }
    match bytes {
        [DW_LNS_advance_pc, operand @ ..] => {
            let (address, rest) = advanced(from, operand)?;
            let advance = Advance {
                address,
                operand: Some(operand.len()),
            };
            Ok((advance, rest))
        }
        _ => Ok((stays, bytes)),
    }
}

/// A copied row, if the address wasn't advanced by 0.
#[tactic(auto, unfolding(crate::specs::FirstFault::copied_at))]
fn copied<'a>(
    before: &Row,
    row: Row,
    operand: Option<usize>,
    rest: &'a [u8],
) -> Result<(Group, &'a [u8]), ReadError>
    ensures { Gives (λ x. (x.0, x.1.now)) result (copied_at before.now row operand rest.now) }
{
    match operand {
        Some(left) if row.address == before.address => Err(ReadError::Left(left)),
        _ => Ok((Group::Copied(row), rest)),
    }
}

/// The end of a sequence, if the address and no other register was set.
#[tactic(auto, unfolding(crate::specs::FirstFault::ended_at))]
fn ended<'a>(
    before: &Row,
    row: Row,
    operand: Option<usize>,
    rest: &'a [u8],
) -> Result<(Group, &'a [u8]), ReadError>
    requires { length rest.now < 2 ^ 63 }
    ensures { Gives (λ x. (x.0, x.1.now)) result (ended_at before.now row operand rest.now) }
{
    let alone = row.file == before.file && row.column == before.column && row.line == before.line;
    if operand.is_none() || !alone {
        return Err(ReadError::Left(rest.len() + 1));
    }
    let after = constants(rest, &[1, DW_LNE_end_sequence])?;
    Ok((Group::Ended(row.address), after))
}

/// The result of the opcode after those that set the registers: a copy or an end.
#[tactic(auto, unfolding(crate::specs::FirstFault::closed_at))]
fn closed<'a>(
    before: &Row,
    row: Row,
    operand: Option<usize>,
    bytes: &'a [u8],
) -> Result<(Group, &'a [u8]), ReadError>
    ensures { Gives (λ x. (x.0, x.1.now)) result (closed_at before.now row operand bytes.now) }
{
    match bytes {
        [DW_LNS_copy, rest @ ..] => copied(before, row, operand, rest),
        [EXTENDED_OPCODE, rest @ ..] => ended(before, row, operand, rest),
        _ => Err(ReadError::Left(bytes.len())),
    }
}

/// The opcodes of one row, or of a sequence's end.
#[tactic(auto, unfolding(crate::specs::FirstFault::group_at))]
fn next_group<'a>(
    first: bool,
    before: &Row,
    bytes: &'a [u8],
) -> Result<(Group, &'a [u8]), ReadError>
    ensures { Gives (λ x. (x.0, x.1.now)) result (group_at first before.now bytes.now) }
{
    let (file, bytes) = file_at(before.file, bytes)?;
    let (column, bytes) = column_at(before.column, bytes)?;
    let (advance, bytes) = address_at(first, before.address, bytes)?;
    let (line, bytes) = new_line_at(before.line, bytes)?;
    let row = Row {
        address: advance.address,
        file,
        line,
        column,
    };
    closed(before, row, advance.operand, bytes)
}

/// The first address of a sequence.
#[tactic(auto, unfolding(crate::specs::FirstFault::start_at))]
fn start(bytes: &[u8]) -> Result<(u64, &[u8]), ReadError>
    ensures { Gives (λ x. (x.0, x.1.now)) result (start_at bytes.now) }
{
    let address = constants(bytes, &[EXTENDED_OPCODE, 9, DW_LNE_set_address])?;
    u64_at(address)
}

/// The rows and the end of a sequence that begins at an address, and the bytes after it.
fn sequence_from(alloc: Global, start: u64, bytes: &[u8]) -> Result<(Sequence, &[u8]), ReadError>
    ensures { MatchResult result
        (λ x. Rows true (registers_at start) bytes.now x.0.rows x.0.end x.1.now)
        (λ e. Faults e (λ left. RowsFault true (registers_at start) bytes.now left)) }
{
    let mut rows = List::new(alloc);
    let mut first = true;
    let mut before = registers(start);
    let mut rest = bytes;
    loop {
        let (group, after) = next_group(first, &before, rest)?;
        match group {
            Group::Ended(end) => return Ok((Sequence { rows, end }, after)),
            Group::Copied(row) => {
                rows.push(row)?;
                first = false;
                before = row;
                rest = after;
            }
        }
    }
}

/// The sequences of a line number program.
fn sequences_of(alloc: Global, bytes: &[u8]) -> Result<Sequences, ReadError>
    ensures { MatchResult result (λ sequences. Program bytes.now sequences) (λ e. Faults e (ProgramFault bytes.now)) }
{
    let mut sequences = List::new(alloc);
    let mut rest = bytes;
    while !rest.is_empty() {
        let (address, rows) = start(rest)?;
        let (sequence, after) = sequence_from(alloc, address, rows)?;
        sequences.push(sequence)?;
        rest = after;
    }
    Ok(sequences)
}

/// The sequences of a section.
fn section(alloc: Global, bytes: &[u8]) -> Result<Sequences, ReadError>
    ensures { MatchResult result (λ sequences. Reads bytes.now sequences) (λ e. Faults e (SectionFault bytes.now)) }
{
    let program = after_header(bytes)?;
    sequences_of(alloc, program)
}
