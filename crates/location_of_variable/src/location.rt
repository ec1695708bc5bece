//! A variable's location, from the places of its parts.

ghost use Rattle.std.specs.Prelude.{◌≡◌, ◌++◌, ◌+◌, Option, IfOk, OnOk, All, option_to_list};
ghost use Rattle.mir_func.specs.Parts.{IsPart};
ghost use Rattle.location_of_variable.specs.VariableLocation.{IsLocationFor};
ghost use Rattle.location_of_variable.specs.steps.Telling.{
  place_at,
  piece_told,
  end_past,
  pieces_from,
  whole_place,
  in_pieces,
};

use crate::group::{Group, Piece};
use dwarf_loclists::range::{Location, Part, Parts};
use mir_func::variable::Fragment;
use rv64_instr::place::Place;
use std::alloc::{AllocError, Global};

/// The location of a variable at a position, from its parts and the place required there for each part, by the part's
/// index: the place of the whole variable, or else pieces for the parts that have a place. It goes by the places of the
/// group's parts alone. The error is out of memory.
pub fn location(
    alloc: Global,
    group: &Group,
    places: &[Option<Place>],
) -> Result<Option<Location>, AllocError>
    ensures { IfOk result (IsLocationFor group.now places.now) }
{
    match whole_place(group.whole, places) {
        Some(place) => Ok(Some(Location::Whole(place))),
        None => Ok(in_pieces(pieces(alloc, group.pieces.as_slice(), places)?)),
    }
}

/// The place of a part.
fn place_at(places: &[Option<Place>], index: usize) -> Option<Place>
    ensures { result ≡ place_at places.now index }
{
    if index < places.len() {
        places[index]
    } else {
        None
    }
}

fn whole_place(whole: Option<usize>, places: &[Option<Place>]) -> Option<Place>
    ensures { result ≡ whole_place (place_at places.now) whole }
{
    place_at(places, whole?)
}

/// The pieces as a location, or None without pieces.
fn in_pieces(pieces: Parts) -> Option<Location>
    ensures { result ≡ in_pieces pieces }
{
    if pieces.is_empty() {
        None
    } else {
        Some(Location::Parts(pieces))
    }
}

/// The pieces for the parts that have a place. Of two that overlap the later one is left out.
fn pieces(alloc: Global, parts: &[Piece], places: &[Option<Place>]) -> Result<Parts, AllocError>
    ensures pieces { IfOk result (λ told. told ≡ pieces_from (place_at places.now) 0 parts.now) }
    ensures parts { OnOk result (All (λ x. IsPart x.bytes) parts.now) }
{
    let mut told = Parts::new(alloc);
    let mut end = 0;
    for piece in parts {
        end = tell(&mut told, piece, place_at(places, piece.index), end)?;
    }
    Ok(told)
}

/// Appends the piece for a part, if it has a place and begins at or after the end of the last piece. The result is the
/// end of the last piece.
fn tell(told: &mut Parts, piece: &Piece, place: Option<Place>, end: u32) -> Result<u32, AllocError>
    ensures told { OnOk result (told.new ≡ told.old ++ option_to_list (piece_told place end piece.now.bytes)) }
    ensures end { IfOk result (λ e. e ≡ end_past (piece_told place end piece.now.bytes) end) }
    ensures part { IsPart piece.now.bytes }
{
    let past = end_of(piece.bytes);
    match piece_told(place, end, piece.bytes) {
        None => Ok(end),
        Some(part) => {
            told.push(part)?;
            Ok(past)
        }
    }
}

fn piece_told(place: Option<Place>, from: u32, bytes: Fragment) -> Option<Part>
    ensures { result ≡ piece_told place from bytes }
{
    match place {
        None => None,
        Some(place) => {
            if from <= bytes.offset() {
                Some(Part {
                    offset: bytes.offset(),
                    length: bytes.length(),
                    place,
                })
            } else {
                None
            }
        }
    }
}

/// The byte after the last one.
fn end_of(bytes: Fragment) -> u32
    ensures end { result ≡ bytes.offset + bytes.length }
    ensures part { IsPart bytes }
{
    bytes.offset() + bytes.length()
}
