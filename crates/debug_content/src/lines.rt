//! The pieces of `.debug_line`.

ghost use Rattle.std.specs.Prelude.{◌≡◌, ◌<◌, ◌^◌, ◌++◌, length, All, OnOk, IfOk};
ghost use Rattle.dwarf_line.specs.Spelling.{first_address, spelling};
ghost use Rattle.dwarf_line.specs.Table.{HasNames, HasRows, IsSequence};
ghost use Rattle.elf_content.specs.declared.piece.Piece.TheVariants as piece;
ghost use Rattle.debug_placement.specs.Lines;
ghost use Rattle.debug_content.specs.steps.Header.{header_of};

use crate::fields::{Pieces, address_field, fixed_front, fixed_rest};
use dwarf_line::size::tables_len;
use dwarf_line::table::{LineTable, Row};
use dwarf_line::write::{push_sequence, write_line};
use elf_content::piece::Piece;
use std::alloc::{AllocError, Global};

/// The bytes of the header that its length doesn't count.
const HEADER: usize = 12;
/// The bytes of the opcode that sets the address, before the address and with it.
const BEFORE_ADDRESS: usize = 3;

const BEHIND_ADDRESS: usize = 11;

/// The pieces of the section of a line number table, by the number of the symbol of the code's section. The error is
/// out of memory.
pub fn line_pieces(alloc: Global, text: u32, t: &LineTable) -> Result<Pieces, AllocError>
    requires names { HasNames t.now }
    requires sequences { All IsSequence t.now.sequences }
    requires size { length (spelling t.now) < 2 ^ 31 }
    ensures { IfOk result (λ pieces. pieces ≡ Lines.line_pieces text t.now) }
{
    let section = write_line(alloc, t)?;
    let mut pieces = Pieces::new(alloc);
    pieces.push(header(alloc, t, section.as_slice())?)?;
    for sequence in t.sequences.as_slice() {
        push_pieces(
            alloc,
            &mut pieces,
            text,
            sequence.rows.as_slice(),
            sequence.end,
        )?;
    }
    Ok(pieces)
}

/// The header in the section of a table.
#[tactic(auto, using(crate::proofs::Parts::header_within, crate::proofs::Parts::header_taken))]
fn header(alloc: Global, t: &LineTable, section: &[u8]) -> Result<Piece, AllocError>
    requires section { section.now ≡ spelling t.now }
    requires size { length (spelling t.now) < 2 ^ 31 }
    ensures { IfOk result (λ made. made ≡ piece.Fixed (header_of t.now)) }
{
    let count = HEADER + tables_len(t);
    fixed_front(alloc, section, count)
}

/// Appends the pieces of a sequence: its rows, and its end.
fn push_pieces(
    alloc: Global,
    pieces: &mut Pieces,
    text: u32,
    rows: &[Row],
    end: u64,
) -> Result<(), AllocError>
    requires { HasRows rows.now end }
    ensures { OnOk result (pieces.new
        ≡ pieces.old ++ Lines.sequence_pieces text (record { rows = rows.now; end = end })) }
{
    let mut bytes = Vec::new(alloc);
    push_sequence(&mut bytes, rows, end)?;
    pieces.push(fixed_front(alloc, bytes.as_slice(), BEFORE_ADDRESS)?)?;
    pieces.push(address_field(alloc, text, first_address(rows, end))?)?;
    pieces.push(fixed_rest(alloc, bytes.as_slice(), BEHIND_ADDRESS)?)?;
    Ok(())
}

/// The first address of rows.
fn first_address(rows: &[Row], _end: u64) -> u64
    requires { HasRows rows.now _end }
    ensures { result ≡ first_address rows.now }
{
    match rows {
        [first, ..] => first.address,
        [] => unreachable!(),
    }
}
