//! The writer of a table's section.

ghost use Rattle.std.specs.Prelude.{◌≡◌, ◌+◌, ◌^◌, ◌≤◌, ◌<◌, ◌++◌, ◌∷◌, length, All, OnOk, IfOk};
ghost use Rattle.std.specs.List.{flat_map};
ghost use Rattle.dwarf_line.specs.Table.{HasRows, IsSequence, HasNames, IsRow, HasRange, IsNumbered};
ghost use Rattle.dwarf_line.specs.FirstFault.{IsSection};
ghost use Rattle.dwarf_line.specs.Spelling;
ghost use Rattle.dwarf_line.specs.Spelling.{changing, set_file, set_column, advance_pc, advance_line, set_address};
ghost use Rattle.dwarf_line.specs.Spelling.{end_sequence, sequence, program};
ghost use Rattle.dwarf_line.specs.Spelling.{text, tables, header, spelling};

use crate::constants::*;
use crate::size::{registers, section_len, tables_len};
use crate::table::{FileEntry, LineTable, Name, Row, Sequence};
use base_list::List;
use dwarf_base::constants::{ADDRESS_SIZE, SEGMENT_SELECTOR_SIZE, VERSION};
use dwarf_base::leb::{Leb, sleb, uleb};
use std::alloc::{AllocError, Global};

/// Bytes, in order.
pub type Bytes = List<u8>;

/// The bytes of the length field, which it doesn't count.
const LENGTH: usize = 4;

/// The section `.debug_line` of a table. The error is out of memory.
pub fn write_line(alloc: Global, t: &LineTable) -> Result<Bytes, AllocError>
    // The names have no zero byte.
    requires names { HasNames t.now }
    // Each sequence has a row, its addresses don't fall, and its end isn't below the last.
    requires sequences { All IsSequence t.now.sequences }
    requires size { length (spelling t.now) < 2 ^ 31 }
    ensures bytes { IfOk result (λ bytes. bytes ≡ spelling t.now) }
    // It is in the grammar, and its table is this one.
    ensures section { IfOk result (λ bytes. IsSection bytes t.now) }
{
    let size = section_len(t);
    let mut out = Vec::with_capacity(alloc, size)?;
    push_header(&mut out, (size - LENGTH) as u32, tables_len(t) as u32)?;
    push_tables(&mut out, t)?;
    push_program(&mut out, t.sequences.as_slice())?;
    Ok(List::from(out))
}

/// Appends the header fields that its length doesn't count.
fn push_header(out: &mut Vec<u8>, length_after: u32, header_length: u32) -> Result<(), AllocError>
    ensures { OnOk result (out.new.items ≡ out.old.items ++ header length_after header_length) }
{
    out.extend_from_slice(&length_after.to_le_bytes())?;
    out.extend_from_slice(&VERSION.to_le_bytes())?;
    out.push(ADDRESS_SIZE)?;
    out.push(SEGMENT_SELECTOR_SIZE)?;
    out.extend_from_slice(&header_length.to_le_bytes())
}

/// Appends the header fields that its length counts.
#[tactic(auto, unfolding(crate::specs::Spelling::tables))]
fn push_tables(out: &mut Vec<u8>, t: &LineTable) -> Result<(), AllocError>
    ensures bytes { OnOk result (out.new.items ≡ out.old.items ++ tables t.now) }
    ensures dirs { OnOk result (length t.now.dirs < 2 ^ 64) }
    ensures files { OnOk result (length t.now.files < 2 ^ 64) }
    ensures numbers { OnOk result (All IsNumbered t.now.files) }
{
    out.extend_from_slice(&INSTRUCTION_FIELDS)?;
    out.extend_from_slice(&DIRECTORY_FORMAT)?;
    push_leb(out, &uleb(t.dirs.len() as u64))?;
    push_dirs(out, t.dirs.as_slice())?;
    out.extend_from_slice(&FILE_FORMAT)?;
    push_leb(out, &uleb(t.files.len() as u64))?;
    push_files(out, t.files.as_slice())
}

/// Appends directories.
fn push_dirs(out: &mut Vec<u8>, dirs: &[Name]) -> Result<(), AllocError>
    ensures { OnOk result (out.new.items ≡ out.old.items ++ flat_map text dirs.now) }
{
    for dir in dirs {
        push_text(out, dir.as_slice())?;
    }
    Ok(())
}

/// Appends files.
fn push_files(out: &mut Vec<u8>, files: &[FileEntry]) -> Result<(), AllocError>
    ensures bytes { OnOk result (out.new.items ≡ out.old.items ++ flat_map Spelling.file files.now) }
    ensures numbers { OnOk result (All IsNumbered files.now) }
{
    for file in files {
        push_source(out, file)?;
    }
    Ok(())
}

/// Appends a file: its name, and the index of its directory.
fn push_source(out: &mut Vec<u8>, file: &FileEntry) -> Result<(), AllocError>
    ensures bytes { OnOk result (out.new.items ≡ out.old.items ++ Spelling.file file.now) }
    ensures number { OnOk result (IsNumbered file.now) }
{
    push_text(out, file.name.as_slice())?;
    push_leb(out, &uleb(file.dir as u64))
}

/// Appends the line number program.
fn push_program(out: &mut Vec<u8>, sequences: &[Sequence]) -> Result<(), AllocError>
    requires { All IsSequence sequences.now }
    ensures bytes { OnOk result (out.new.items ≡ out.old.items ++ program sequences.now) }
    ensures ranges { OnOk result (All HasRange sequences.now) }
{
    for sequence in sequences {
        push_sequence(out, sequence.rows.as_slice(), sequence.end)?;
    }
    Ok(())
}

/// Appends a sequence: its first address, its rows, and its end.
pub fn push_sequence(out: &mut Vec<u8>, rows: &[Row], end: u64) -> Result<(), AllocError>
    requires { HasRows rows.now end }
    ensures bytes { OnOk result (out.new.items ≡ out.old.items ++ sequence (record { rows = rows.now; end = end })) }
    ensures ranges { OnOk result (All IsRow rows.now × (end < 2 ^ 64)) }
{
    let mut before = registers(rows[0].address);
    push_set_address(out, before.address)?;
    for row in rows {
        push_row(out, &before, row)?;
        before = *row;
    }
    push_end(out, before.address, end)
}

/// Appends the opcode that sets the address.
fn push_set_address(out: &mut Vec<u8>, address: u64) -> Result<(), AllocError>
    ensures { OnOk result (out.new.items ≡ out.old.items ++ set_address address) }
{
    out.push(EXTENDED_OPCODE)?;
    out.push(9)?;
    out.push(DW_LNE_set_address)?;
    out.extend_from_slice(&address.to_le_bytes())
}

/// Appends the advance to a sequence's end, and the end.
fn push_end(out: &mut Vec<u8>, last: u64, end: u64) -> Result<(), AllocError>
    requires { last ≤ end }
    ensures { OnOk result (out.new.items ≡ out.old.items ++ (advance_pc last end ++ end_sequence)) }
{
    push_opcode(out, DW_LNS_advance_pc, &uleb(end - last))?;
    out.push(EXTENDED_OPCODE)?;
    out.push(1)?;
    out.push(DW_LNE_end_sequence)?;
    Ok(())
}

/// Appends a row after another: the opcodes for registers that change, and the copy.
#[tactic(auto, unfolding(crate::specs::Spelling::row))]
fn push_row(out: &mut Vec<u8>, before: &Row, row: &Row) -> Result<(), AllocError>
    requires { before.now.address ≤ row.now.address }
    ensures bytes { OnOk result (out.new.items ≡ out.old.items ++ Spelling.row before.now row.now) }
    ensures ranges { OnOk result (IsRow row.now) }
{
    push_file(out, before.file, row.file)?;
    push_column(out, before.column, row.column)?;
    push_address(out, before.address, row.address)?;
    push_line(out, before.line, row.line)?;
    out.push(DW_LNS_copy)?;
    Ok(())
}

/// Appends a change of the file.
fn push_file(out: &mut Vec<u8>, before: u32, file: u32) -> Result<(), AllocError>
    ensures { OnOk result (out.new.items ≡ out.old.items ++ changing before file (set_file file)) }
{
    if file == before {
        Ok(())
    } else {
        push_opcode(out, DW_LNS_set_file, &uleb(file as u64))
    }
}

/// Appends a change of the column.
fn push_column(out: &mut Vec<u8>, before: u32, column: u32) -> Result<(), AllocError>
    ensures { OnOk result (out.new.items ≡ out.old.items ++ changing before column (set_column column)) }
{
    if column == before {
        Ok(())
    } else {
        push_opcode(out, DW_LNS_set_column, &uleb(column as u64))
    }
}

/// Appends an advance of the address.
fn push_address(out: &mut Vec<u8>, before: u64, address: u64) -> Result<(), AllocError>
    requires { before ≤ address }
    ensures { OnOk result (out.new.items ≡ out.old.items ++ changing before address (advance_pc before address)) }
{
    if address == before {
        Ok(())
    } else {
        push_opcode(out, DW_LNS_advance_pc, &uleb(address - before))
    }
}

/// Appends an advance of the line.
fn push_line(out: &mut Vec<u8>, before: u32, line: u32) -> Result<(), AllocError>
    ensures { OnOk result (out.new.items ≡ out.old.items ++ changing before line (advance_line before line)) }
{
    if line == before {
        Ok(())
    } else {
        push_opcode(out, DW_LNS_advance_line, &sleb(line as i64 - before as i64))
    }
}

/// Appends an opcode with its operand.
fn push_opcode(out: &mut Vec<u8>, opcode: u8, operand: &Leb) -> Result<(), AllocError>
    ensures { OnOk result (out.new.items ≡ out.old.items ++ opcode ∷ operand.now) }
{
    out.push(opcode)?;
    push_leb(out, operand)
}

/// Appends a LEB128 number.
fn push_leb(out: &mut Vec<u8>, number: &Leb) -> Result<(), AllocError>
    ensures { OnOk result (out.new.items ≡ out.old.items ++ number.now) }
{
    out.extend_from_slice(number.as_slice())
}

/// Appends a string: its bytes, and a zero byte.
fn push_text(out: &mut Vec<u8>, name: &[u8]) -> Result<(), AllocError>
    ensures { OnOk result (out.new.items ≡ out.old.items ++ text name.now) }
{
    out.extend_from_slice(name)?;
    out.push(0)?;
    Ok(())
}
