//! The pieces of `.debug_info`.

ghost use Rattle.std.specs.Prelude.{◌≡◌, ◌<◌, ◌^◌, ◌++◌, ◌∷◌, [], length, map, All, OnOk, IfOk};
ghost use Rattle.std.specs.Int.{w32, to_le_bytes};
ghost use Rattle.std.specs.List.{flat_map};
ghost use Rattle.dwarf_base.specs.Leb.{uleb_of};
ghost use Rattle.dwarf_info.specs.declared.kind.DieKind.TheVariants.{Subprogram};
ghost use Rattle.dwarf_info.specs.Kinds.{code};
ghost use Rattle.dwarf_info.specs.Entries.{named, spelling, HasTypes};
ghost use Rattle.dwarf_info.specs.steps.Parts.{in_table};
ghost use Rattle.elf_content.specs.declared.piece.Piece.TheVariants as piece;
ghost use Rattle.debug_placement.specs.Entries;

use crate::fields::{Pieces, address_field, fixed, fixed_front, fixed_rest, offset_field};
use base_list::List;
use debug_placement::sections::UnitSections;
use dwarf_info::constants::{DW_LANG_C99, LOCLISTS_BASE};
use dwarf_info::entry::{push_code, push_compile_unit, push_text, push_u16, push_u32};
use dwarf_info::kind::DieKind;
use dwarf_info::size::section_len;
use dwarf_info::unit::{FunctionEntry, Unit};
use dwarf_info::write::{push_header, push_types, push_variables};
use elf_content::piece::Piece;
use std::alloc::{AllocError, Global};

/// The bytes of the length field, which it doesn't count.
const LENGTH: usize = 4;
/// The bytes of the header before the offset of the abbreviations.
const HEADER_FRONT: usize = 8;

/// The pieces of the section of a unit, by the numbers of the symbols of the sections to which it refers. The error is
/// out of memory.
pub fn info_pieces(alloc: Global, s: &UnitSections, u: &Unit) -> Result<Pieces, AllocError>
    // The type of each variable is there.
    requires types { All (HasTypes (length u.now.types)) u.now.functions }
    requires size { length (spelling u.now) < 2 ^ 31 }
    ensures { IfOk result (λ pieces. pieces ≡ Entries.info_pieces s.now u.now) }
{
    let size = section_len(u);
    let after = (size - LENGTH) as u32;
    let mut front = Vec::new(alloc);
    let mut offsets = Vec::new(alloc);
    push_header(&mut front, after)?;
    push_compile_unit(&mut front, u)?;
    let types = front.len();
    push_types(&mut front, &mut offsets, u.types.as_slice())?;
    let mut pieces = Pieces::new(alloc);
    let name = u.name.as_slice();
    push_front(
        alloc,
        &mut pieces,
        s,
        after,
        DieKind::CompileUnit,
        name,
        u.dir.as_slice(),
        u.text_len,
    )?;
    pieces.push(fixed_rest(alloc, front.as_slice(), types)?)?;
    push_functions(alloc, &mut pieces, s.text, &offsets, u.functions.as_slice())?;
    pieces.push(fixed(alloc, &[0])?)?;
    Ok(pieces)
}

/// Appends the pieces from the header up to DW_AT_loclists_base.
fn push_front(
    alloc: Global,
    pieces: &mut Pieces,
    s: &UnitSections,
    after: u32,
    kind: DieKind,
    name: &[u8],
    dir: &[u8],
    text_len: u32,
) -> Result<(), AllocError>
    ensures { OnOk result (pieces.new
        ≡ pieces.old ++ Entries.front_pieces s.now after (Entries.unit_front kind name.now dir.now) text_len []) }
{
    pieces.push(header_piece(alloc, after)?)?;
    pieces.push(offset_field(alloc, s.abbreviations, 0)?)?;
    pieces.push(unit_piece(alloc, kind, name, dir)?)?;
    pieces.push(offset_field(alloc, s.lines, 0)?)?;
    pieces.push(address_field(alloc, s.text, 0)?)?;
    pieces.push(size_piece(alloc, text_len)?)?;
    pieces.push(offset_field(alloc, s.lists, LOCLISTS_BASE)?)?;
    Ok(())
}

/// The header before the offset of the abbreviations.
fn header_piece(alloc: Global, after: u32) -> Result<Piece, AllocError>
    ensures { IfOk result (λ made. made ≡ piece.Fixed (Entries.header_front after)) }
{
    let mut header = Vec::new(alloc);
    push_header(&mut header, after)?;
    Ok(fixed_front(alloc, header.as_slice(), HEADER_FRONT)?)
}

/// A length of code.
fn size_piece(alloc: Global, size: u32) -> Result<Piece, AllocError>
    ensures { IfOk result (λ made. made ≡ piece.Fixed (to_le_bytes w32 size)) }
{
    fixed(alloc, &size.to_le_bytes())
}

/// The unit's entry before its first offset.
fn unit_piece(alloc: Global, kind: DieKind, name: &[u8], dir: &[u8]) -> Result<Piece, AllocError>
    ensures { IfOk result (λ made. made ≡ piece.Fixed (Entries.unit_front kind name.now dir.now)) }
{
    let mut front = Vec::new(alloc);
    push_code(&mut front, kind)?;
    push_u16(&mut front, DW_LANG_C99)?;
    push_text(&mut front, name)?;
    push_text(&mut front, dir)?;
    Ok(Piece::Fixed(List::from(front)))
}

/// Appends the pieces of functions, by the offsets of the types' entries.
fn push_functions(
    alloc: Global,
    pieces: &mut Pieces,
    text: u32,
    offsets: &[u32],
    functions: &[FunctionEntry],
) -> Result<(), AllocError>
    requires { All (HasTypes (length offsets.now)) functions.now }
    ensures { OnOk result (pieces.new ≡ pieces.old
        ++ flat_map (Entries.part_pieces text) (map (Entries.part_of (in_table offsets.now)) functions.now)) }
{
    for function in functions {
        push_function(alloc, pieces, text, offsets, function)?;
    }
    Ok(())
}

/// Appends the pieces of a function.
fn push_function(
    alloc: Global,
    pieces: &mut Pieces,
    text: u32,
    offsets: &[u32],
    f: &FunctionEntry,
) -> Result<(), AllocError>
    requires { HasTypes (length offsets.now) f.now }
    ensures { OnOk result (pieces.new
        ≡ pieces.old ++ Entries.part_pieces text (Entries.part_of (in_table offsets.now) f.now)) }
{
    pieces.push(front_piece(alloc, f.name.as_slice())?)?;
    pieces.push(address_field(alloc, text, f.lo)?)?;
    pieces.push(children_piece(alloc, offsets, f)?)?;
    Ok(())
}

/// The entry of a function of this name before its address.
fn front_piece(alloc: Global, name: &[u8]) -> Result<Piece, AllocError>
    ensures { IfOk result (λ made. made ≡ piece.Fixed (uleb_of (code Subprogram) ++ (named name.now ++ 0 ∷ []))) }
{
    let mut front = Vec::new(alloc);
    push_code(&mut front, DieKind::Subprogram)?;
    push_text(&mut front, name)?;
    Ok(Piece::Fixed(List::from(front)))
}

/// What follows its address: its length, its variables, and the end of its children.
fn children_piece(alloc: Global, offsets: &[u32], f: &FunctionEntry) -> Result<Piece, AllocError>
    requires { HasTypes (length offsets.now) f.now }
    ensures { IfOk result (λ made. made
        ≡ piece.Fixed (Entries.part_rest f.now (Entries.part_of (in_table offsets.now) f.now).children)) }
{
    let mut rest = Vec::new(alloc);
    push_u32(&mut rest, f.len)?;
    push_variables(&mut rest, offsets, f.variables.as_slice())?;
    rest.push(0)?;
    Ok(Piece::Fixed(List::from(rest)))
}
