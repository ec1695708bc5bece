//! The encoding of a location's DWARF expression, and its length in bytes.

ghost use Rattle.std.specs.Prelude.{◌≡◌, ◌+◌, ◌*◌, ◌^◌, ◌<◌, ◌≤◌, ◌++◌, length, OnOk, All};
ghost use Rattle.dwarf_loclists.specs.Ranges.{IsListed, IsPiece, ArePieces, IsLocated, HasWord, HasWords, places_of};
ghost use Rattle.dwarf_loclists.specs.Spelling.{simple_location, gap, piece, composite_location, expression};

use crate::constants::*;
use crate::range::{Location, Part};
use dwarf_base::leb::{Leb, sleb, uleb};
use rv64_instr::place::Place;
use std::alloc::AllocError;

/// The bytes of a location's expression.
pub fn location_len(location: &Location) -> usize
    requires { IsLocated location.now }
    ensures exact { result ≡ length (expression location.now) }
    ensures within { result ≤ 34 * places_of location.now }
    ensures small { result < 2 ^ 38 }
{
    match location {
        Location::Whole(place) => place_len(*place),
        Location::Parts(parts) => pieces_len(parts.as_slice()),
    }
}

/// Appends the expression of a location.
pub fn push_location(out: &mut Vec<u8>, location: &Location) -> Result<(), AllocError>
    requires { IsLocated location.now }
    ensures bytes { OnOk result (out.new.items ≡ out.old.items ++ expression location.now) }
    ensures wide { OnOk result (HasWords location.now) }
{
    match location {
        Location::Whole(place) => push_place(out, *place),
        Location::Parts(parts) => push_pieces(out, parts.as_slice()),
    }
}

/// Appends a LEB128 number.
pub fn push_leb(out: &mut Vec<u8>, number: &Leb) -> Result<(), AllocError>
    ensures { OnOk result (out.new.items ≡ out.old.items ++ number.now) }
{
    out.extend_from_slice(number.as_slice())
}

/// The bytes of the simple location description of a place.
fn place_len(place: Place) -> usize
    requires { IsListed place }
    ensures exact { result ≡ length (simple_location place) }
    ensures within { result ≤ 12 }
{
    match place {
        Place::Register(_) => 1,
        Place::Slot(offset) => 1 + sleb(i64::from(offset.number())).len(),
        Place::Const(c) => 2 + sleb(c).len(),
    }
}

/// Appends the simple location description of a place.
fn push_place(out: &mut Vec<u8>, place: Place) -> Result<(), AllocError>
    requires { IsListed place }
    ensures bytes { OnOk result (out.new.items ≡ out.old.items ++ simple_location place) }
    ensures wide { OnOk result (HasWord place) }
{
    match place {
        Place::Register(register) => out.push(DW_OP_reg0 + register.number() as u8)?,
        Place::Slot(offset) => {
            out.push(DW_OP_breg2)?;
            push_leb(out, &sleb(i64::from(offset.number())))?;
        }
        Place::Const(c) => {
            out.push(DW_OP_consts)?;
            push_leb(out, &sleb(c))?;
            out.push(DW_OP_stack_value)?;
        }
    }
    Ok(())
}

/// The bytes of the composite location description of a variable's pieces.
fn pieces_len(parts: &[Part]) -> usize
    requires { ArePieces 0 parts.now }
    ensures exact { result ≡ length (composite_location 0 parts.now) }
    ensures within { result ≤ 34 * length parts.now }
    ensures small { result < 2 ^ 38 }
{
    let mut len = 0;
    let mut from = 0;
    for part in parts {
        len += piece_len(from, *part);
        from = part.offset + part.length;
    }
    len
}

/// Appends the composite location description of a variable's pieces.
fn push_pieces(out: &mut Vec<u8>, parts: &[Part]) -> Result<(), AllocError>
    requires { ArePieces 0 parts.now }
    ensures bytes { OnOk result (out.new.items ≡ out.old.items ++ composite_location 0 parts.now) }
    ensures wide { OnOk result (All (λ p. HasWord p.place) parts.now) }
{
    let mut from = 0;
    for part in parts {
        push_piece(out, from, *part)?;
        from = part.offset + part.length;
    }
    Ok(())
}

/// The bytes of a piece, including the gap before it.
fn piece_len(from: u32, part: Part) -> usize
    requires { IsPiece from part }
    ensures exact { result ≡ length (piece from part) }
    ensures within { result ≤ 34 }
{
    gap_len(from, part.offset) + place_len(part.place) + 1 + uleb(part.length as u64).len()
}

/// Appends a piece, including the gap before it.
fn push_piece(out: &mut Vec<u8>, from: u32, part: Part) -> Result<(), AllocError>
    requires { IsPiece from part }
    ensures bytes { OnOk result (out.new.items ≡ out.old.items ++ piece from part) }
    ensures wide { OnOk result (HasWord part.place) }
{
    push_gap(out, from, part.offset)?;
    push_place(out, part.place)?;
    out.push(DW_OP_piece)?;
    push_leb(out, &uleb(part.length as u64))
}

/// The bytes of the gap up to an offset.
fn gap_len(from: u32, offset: u32) -> usize
    ensures exact { result ≡ length (gap from offset) }
    ensures within { result ≤ 11 }
{
    if from < offset {
        1 + uleb((offset - from) as u64).len()
    } else {
        0
    }
}

/// Appends the gap up to an offset, if there is one.
fn push_gap(out: &mut Vec<u8>, from: u32, offset: u32) -> Result<(), AllocError>
    ensures { OnOk result (out.new.items ≡ out.old.items ++ gap from offset) }
{
    if from < offset {
        out.push(DW_OP_piece)?;
        push_leb(out, &uleb((offset - from) as u64))?;
    }
    Ok(())
}
