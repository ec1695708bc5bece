//! The encoding of a location's DWARF expression, where the variable's size is known.

ghost use Rattle.std.specs.Prelude.{◌≡◌, ◌+◌, ◌^◌, ◌<◌, ◌++◌, OnOk};
ghost use Rattle.dwarf_loclists.specs.Ranges.{ArePieces, IsListed, IsLocated, IsPiece};
ghost use Rattle.dwarf_loclists.specs.Spelling.{simple_location};
ghost use Rattle.sized_lists.specs.Spelling.{composite_location, expression, gap, located_bytes, piece, whole_location};

use crate::constants::DW_OP_bit_piece;
use dwarf_base::leb::uleb;
use dwarf_loclists::constants::DW_OP_piece;
use dwarf_loclists::location::{push_leb, push_location};
use dwarf_loclists::range::{Location, Part};
use rv64_instr::place::Place;
use std::alloc::AllocError;

/// The bytes of a variable that a place has.
const PLACE_SIZE: u64 = 8;

/// Appends the expression of a location of a variable with so many bytes.
pub(crate) fn push_expression(
    out: &mut Vec<u8>,
    size: u64,
    location: &Location,
) -> Result<(), AllocError>
    requires located { IsLocated location.now }
    requires size { size < 2 ^ 61 }
    ensures { OnOk result (out.new.items ≡ out.old.items ++ expression size location.now) }
{
    match location {
        Location::Whole(place) => push_whole(out, size, *place),
        Location::Parts(parts) => push_pieces(out, size, parts.as_slice()),
    }
}

/// Appends the expression of a place of a variable with so many bytes.
fn push_whole(out: &mut Vec<u8>, size: u64, place: Place) -> Result<(), AllocError>
    requires listed { IsListed place }
    requires size { size < 2 ^ 61 }
    ensures { OnOk result (out.new.items ≡ out.old.items ++ whole_location size place) }
{
    if PLACE_SIZE < size {
        push_bytes(out, place, PLACE_SIZE)?;
        push_gap(out, PLACE_SIZE, size)
    } else {
        push_place(out, place)
    }
}

/// Appends the expression of a variable's pieces, up to its size.
fn push_pieces(out: &mut Vec<u8>, size: u64, parts: &[Part]) -> Result<(), AllocError>
    requires pieces { ArePieces 0 parts.now }
    requires size { size < 2 ^ 61 }
    ensures { OnOk result (out.new.items ≡ out.old.items ++ composite_location size 0 parts.now) }
{
    let mut from = 0;
    for part in parts {
        push_piece(out, from, *part)?;
        from = (part.offset + part.length) as u64;
    }
    push_gap(out, from, size)
}

/// Appends a piece, including the gap before it.
fn push_piece(out: &mut Vec<u8>, from: u64, part: Part) -> Result<(), AllocError>
    requires { IsPiece from part }
    ensures { OnOk result (out.new.items ≡ out.old.items ++ piece from part) }
{
    push_gap(out, from, u64::from(part.offset))?;
    push_bytes(out, part.place, u64::from(part.length))
}

/// Appends so many bytes at a place.
fn push_bytes(out: &mut Vec<u8>, place: Place, count: u64) -> Result<(), AllocError>
    requires { IsListed place }
    ensures { OnOk result (out.new.items ≡ out.old.items ++ located_bytes place count) }
{
    push_place(out, place)?;
    out.push(DW_OP_piece)?;
    push_leb(out, &uleb(count))
}

/// Appends the simple location description of a place.
fn push_place(out: &mut Vec<u8>, place: Place) -> Result<(), AllocError>
    requires { IsListed place }
    ensures { OnOk result (out.new.items ≡ out.old.items ++ simple_location place) }
{
    push_location(out, &Location::Whole(place))
}

/// Appends the gap from one offset up to another, if there is one.
fn push_gap(out: &mut Vec<u8>, from: u64, to: u64) -> Result<(), AllocError>
    requires { to < 2 ^ 61 }
    ensures { OnOk result (out.new.items ≡ out.old.items ++ gap from to) }
{
    if from < to {
        out.push(DW_OP_bit_piece)?;
        push_leb(out, &uleb(8 * (to - from)))?;
        out.push(0)?;
    }
    Ok(())
}
