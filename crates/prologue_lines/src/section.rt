//! The section of a table: its size and its pieces.

ghost use Rattle.std.specs.Prelude.{◌≡◌, ◌+◌, ◌≤◌, ◌<◌, ◌^◌, [], ◌∷◌, ◌++◌, ◌↔◌, length, take, drop, All, IsNone, IfSome};
ghost use Rattle.std.specs.Prelude.{OnOk, IfOk};
ghost use Rattle.std.specs.Int.{w32, to_le_bytes};
ghost use Rattle.dwarf_line.specs.Spelling.{sequence as plain_sequence};
ghost use Rattle.dwarf_line.specs.Spelling.{first_address};
ghost use Rattle.dwarf_line.specs.Table.{HasNames, HasRows, IsSequence};
ghost use Rattle.elf_content.specs.declared.piece.Piece.TheVariants as piece;
ghost use Rattle.prologue_lines.specs.Pieces;
ghost use Rattle.prologue_lines.specs.Pieces.{header_of};
ghost use Rattle.prologue_lines.specs.Spelling.{sequence, spelling};
ghost use Rattle.prologue_lines.specs.steps.Ends.{has_second, ends_in};

use debug_content::fields::{Pieces, address_field, fixed_front, fixed_rest};
use dwarf_base::limits::SECTION_LIMIT;
use dwarf_line::size::{section_len, tables_len};
use dwarf_line::table::{LineTable, Row, Sequence};
use dwarf_line::write::{push_sequence, write_line};
use elf_content::piece::Piece;
use std::alloc::{AllocError, Global};

/// Sets the register `prologue_end` for the next row (DWARF 5 sections 6.2.5.2 and 7.22).
const DW_LNS_set_prologue_end: u8 = 0x0a;

/// The bytes of the length field, which it doesn't count.
const LENGTH: usize = 4;
/// The bytes of the header that its length doesn't count.
const HEADER: usize = 12;
/// The bytes of the opcode that sets the address, before the address and with it.
const BEFORE_ADDRESS: usize = 3;

const BEHIND_ADDRESS: usize = 11;
/// The bytes of the copy of a row, of an advance of the address by 0, and of the end of a sequence.
const COPY_AND_END: usize = 6;

/// The size of a table's section in bytes, and `None` if and only if it is 2^31 or more. It takes no memory.
pub fn line_size(t: &LineTable) -> Option<u32>
    requires { All IsSequence t.now.sequences }
    ensures none { IsNone result ↔ (2 ^ 31 ≤ length (spelling t.now)) }
    ensures size { IfSome result (λ size. size ≡ length (spelling t.now)) }
{
    let size = section_len(t).saturating_add(prologue_ends(t.sequences.as_slice()));
    if size < SECTION_LIMIT {
        Some(size as u32)
    } else {
        None
    }
}

/// The number of sequences with a second row.
fn prologue_ends(sequences: &[Sequence]) -> usize
    ensures { result ≡ ends_in sequences.now }
{
    let mut count = 0;
    for sequence in sequences {
        if has_second(sequence.rows.as_slice()) {
            count += 1;
        }
    }
    count
}

/// Whether there is a second row.
fn has_second(rows: &[Row]) -> bool
    ensures { result ≡ has_second rows.now }
{
    match rows {
        [] | [_] => false,
        [_, _, ..] => true,
    }
}

/// The pieces of the section of a table, by the number of the symbol of the code's section. The error is out of
/// memory.
pub fn line_pieces(alloc: Global, text: u32, t: &LineTable) -> Result<Pieces, AllocError>
    // The names have no zero byte.
    requires names { HasNames t.now }
    // Each sequence has a row, its addresses don't fall, and its end isn't below the last.
    requires sequences { All IsSequence t.now.sequences }
    requires size { length (spelling t.now) < 2 ^ 31 }
    ensures { IfOk result (λ pieces. pieces ≡ Pieces.line_pieces text t.now) }
{
    let mut pieces = Pieces::new(alloc);
    pieces.push(header(alloc, t)?)?;
    for sequence in t.sequences.as_slice() {
        push_pieces(
            alloc,
            &mut pieces,
            text,
            sequence.rows.as_slice(),
            sequence.end,
        )?;
    }
    Ok(pieces)
}

/// The part before the line number program: that of the table without `prologue_end`, but for the section's length.
fn header(alloc: Global, t: &LineTable) -> Result<Piece, AllocError>
    requires names { HasNames t.now }
    requires sequences { All IsSequence t.now.sequences }
    requires size { length (spelling t.now) < 2 ^ 31 }
    ensures { IfOk result (λ made. made ≡ piece.Fixed (header_of t.now)) }
{
    let section = write_line(alloc, t)?;
    let length_after = (section.len() - LENGTH + prologue_ends(t.sequences.as_slice())) as u32;
    let bytes = with_length(alloc, length_after, section.as_slice())?;
    let count = HEADER + tables_len(t);
    fixed_front(alloc, bytes.as_slice(), count)
}

/// The bytes of a section with another length.
fn with_length(alloc: Global, length_after: u32, section: &[u8]) -> Result<Vec<u8>, AllocError>
    requires { 4 ≤ length section.now }
    ensures { IfOk result (λ made. made.items ≡ to_le_bytes w32 length_after ++ drop 4 section.now) }
{
    let mut made = Vec::from_slice(alloc, &length_after.to_le_bytes())?;
    made.extend_from_slice(&section[LENGTH..])?;
    Ok(made)
}

/// Appends the pieces of a sequence: its rows, and its end.
fn push_pieces(
    alloc: Global,
    pieces: &mut Pieces,
    text: u32,
    rows: &[Row],
    end: u64,
) -> Result<(), AllocError>
    requires { HasRows rows.now end }
    ensures { OnOk result (pieces.new
        ≡ pieces.old ++ Pieces.sequence_pieces text (record { rows = rows.now; end = end })) }
{
    let bytes = sequence_bytes(alloc, rows, end)?;
    pieces.push(fixed_front(alloc, bytes.as_slice(), BEFORE_ADDRESS)?)?;
    pieces.push(address_field(alloc, text, first_address(rows, end))?)?;
    pieces.push(fixed_rest(alloc, bytes.as_slice(), BEHIND_ADDRESS)?)?;
    Ok(())
}

/// The first address of rows.
fn first_address(rows: &[Row], _end: u64) -> u64
    requires { HasRows rows.now _end }
    ensures { result ≡ first_address rows.now }
{
    match rows {
        [first, ..] => first.address,
        [] => unreachable!(),
    }
}

/// The opcodes of a sequence: with `DW_LNS_set_prologue_end` before the copy of its second row.
fn sequence_bytes(alloc: Global, rows: &[Row], end: u64) -> Result<Vec<u8>, AllocError>
    requires { HasRows rows.now end }
    ensures { IfOk result (λ bytes. bytes.items ≡ sequence (record { rows = rows.now; end = end })) }
{
    let mut plain = Vec::new(alloc);
    push_sequence(&mut plain, rows, end)?;
    if rows.len() < 2 {
        return Ok(plain);
    }
    let at = before_copy(alloc, rows[0], rows[1])?;
    with_prologue_end(alloc, plain.as_slice(), at)
}

/// The number of bytes of a sequence before the copy of its second row.
fn before_copy(alloc: Global, first: Row, second: Row) -> Result<usize, AllocError>
    requires { first.address ≤ second.address }
    ensures { IfOk result (λ at. at + 6 ≡ length (plain_sequence (record {
      rows = first ∷ second ∷ [];
      end = second.address;
    }))) }
{
    let mut front = Vec::new(alloc);
    push_sequence(&mut front, &[first, second], second.address)?;
    Ok(front.len() - COPY_AND_END)
}

/// Bytes with `DW_LNS_set_prologue_end` at an index.
fn with_prologue_end(alloc: Global, bytes: &[u8], at: usize) -> Result<Vec<u8>, AllocError>
    requires { at ≤ length bytes.now }
    ensures { IfOk result (λ made. made.items ≡ take at bytes.now ++ 0x0a ∷ drop at bytes.now) }
{
    let mut made = Vec::from_slice(alloc, &bytes[..at])?;
    made.push(DW_LNS_set_prologue_end)?;
    made.extend_from_slice(&bytes[at..])?;
    Ok(made)
}
