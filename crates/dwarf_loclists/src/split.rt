//! The reader of DWARF expressions: a place, or the next piece, at the front of the bytes.

ghost use Rattle.std.specs.Prelude.{◌≡◌, ◌≢◌, ◌+◌, ◌^◌, ◌<◌, ◌≤◌, [], ◌∷◌, ◌++◌, ℕ, List, Some, IfSome, IfNone, IsTrue};
ghost use Rattle.std.specs.Prelude.{◌↔◌};
ghost use Rattle.std.specs.Bool.{OnTrue};
ghost use Rattle.rv64_instr.specs.declared.place.Place.{Place};
ghost use Rattle.dwarf_loclists.specs.Ranges.{IsListed, IsPiece, HasWord, whole_place, nth_piece};
ghost use Rattle.dwarf_loclists.specs.declared.range.Part.{Part};
ghost use Rattle.dwarf_loclists.specs.declared.range.Location.{Location};
ghost use Rattle.dwarf_loclists.specs.declared.range.Location.TheVariants.{Whole};
ghost use Rattle.dwarf_loclists.specs.steps.Pieces.{BeginsNoPiece, SpellsPieces};
ghost use Rattle.dwarf_loclists.specs.Spelling.{simple_location, gap, piece, Spells};

use crate::constants::*;
use crate::range::Part;
use base_ids::function_ids::SlotId;
use dwarf_base::front::{split_sleb, split_uleb};
use rv64_instr::place::Place;
use rv64_instr::reg::physical;

/// The last frame slot's offset from x2, in bytes.
const LAST_SLOT: i64 = 2024;
/// The bytes of a frame slot.
const DOUBLEWORD: u32 = 8;

/// The most bytes of a piece.
const LONGEST_PIECE: u64 = 8;

/// Whether the bytes are the expression of some location.
pub fn is_expression(bytes: &[u8]) -> bool
    ensures yes { OnTrue result ((l : Location) × Spells bytes.now l) }
    ensures no { (l : Location) → Spells bytes.now l → IsTrue result }
{
    whole(bytes).is_some() || (!bytes.is_empty() && are_pieces(bytes))
}

/// The place of a whole variable, from its location's expression. `None` for pieces.
pub fn whole(bytes: &[u8]) -> Option<Place>
    ensures place { (l : Location) → Spells bytes.now l → result ≡ whole_place (Some l) }
    ensures only { IfSome result (λ p. Spells bytes.now (Whole p)) }
{
    match split_place(bytes) {
        Some((place, rest)) => { if rest.is_empty() { Some(place) } else { None } }
        None => None,
    }
}

/// The n-th piece of a variable, counted from 0, from its location's expression. `None` if it has fewer.
pub fn nth(bytes: &[u8], n: u32) -> Option<Part>
    ensures { (l : Location) → Spells bytes.now l → result ≡ nth_piece (Some l) n }
{
    let mut from = 0;
    let mut rest = bytes;
    for _ in 0..n {
        match split_piece(from, rest) {
            Some((part, after)) => {
                from = part.offset + part.length;
                rest = after;
            }
            None => return None,
        }
    }
    match split_piece(from, rest) {
        Some((part, _)) => Some(part),
        None => None,
    }
}

/// Whether the bytes are pieces and nothing else.
fn are_pieces(bytes: &[u8]) -> bool
    ensures { IsTrue result ↔ SpellsPieces 0 bytes.now }
{
    let mut from = 0;
    let mut rest = bytes;
    while !rest.is_empty() {
        match split_piece(from, rest) {
            Some((part, after)) => {
                from = part.offset + part.length;
                rest = after;
            }
            None => return false,
        }
    }
    true
}

/// The place whose simple location description is at the front, and the bytes after it. `None` if and only if there is
/// none.
fn split_place(bytes: &[u8]) -> Option<(Place, &[u8])>
    ensures some { IfSome result (λ r. bytes.now ≡ simple_location r.0 ++ r.1.now) }
    ensures listed { IfSome result (λ r. IsListed r.0) }
    ensures wide { IfSome result (λ r. HasWord r.0) }
    ensures none { IfNone result ((p : Place) (rest : List ℕ) → IsListed p → HasWord p → bytes.now ≢ simple_location p
        ++ rest) }
{
    let (operation, rest) = bytes.split_first()?;
    if *operation == DW_OP_consts {
        split_constant(rest)
    } else if *operation == DW_OP_breg2 {
        split_slot(rest)
    } else {
        Some((register(*operation)?, rest))
    }
}

/// The constant after its operation, and the bytes after it.
fn split_constant(bytes: &[u8]) -> Option<(Place, &[u8])>
    ensures some { IfSome result (λ r. DW_OP_consts ∷ bytes.now ≡ simple_location r.0 ++ r.1.now) }
    ensures listed { IfSome result (λ r. IsListed r.0) }
    ensures wide { IfSome result (λ r. HasWord r.0) }
    ensures none { IfNone result ((p : Place) (rest : List ℕ) → IsListed p → HasWord p
        → DW_OP_consts ∷ bytes.now ≢ simple_location p ++ rest) }
{
    let (value, rest) = split_sleb(bytes)?;
    let (operation, rest) = rest.split_first()?;
    if *operation == DW_OP_stack_value {
        Some((Place::Const(value), rest))
    } else {
        None
    }
}

/// The slot after its operation, and the bytes after it.
fn split_slot(bytes: &[u8]) -> Option<(Place, &[u8])>
    ensures some { IfSome result (λ r. DW_OP_breg2 ∷ bytes.now ≡ simple_location r.0 ++ r.1.now) }
    ensures listed { IfSome result (λ r. IsListed r.0) }
    ensures wide { IfSome result (λ r. HasWord r.0) }
    ensures none { IfNone result ((p : Place) (rest : List ℕ) → IsListed p → HasWord p
        → DW_OP_breg2 ∷ bytes.now ≢ simple_location p ++ rest) }
{
    let (value, rest) = split_sleb(bytes)?;
    if value < 0 || value > LAST_SLOT {
        return None;
    }
    let offset = value as u32;
    if offset % DOUBLEWORD == 0 {
        Some((Place::Slot(SlotId(offset)), rest))
    } else {
        None
    }
}

/// The register of an operation: x1 to x31 but x2.
fn register(operation: u8) -> Option<Place>
    ensures some { IfSome result (λ p. operation ∷ [] ≡ simple_location p) }
    ensures listed { IfSome result IsListed }
    ensures wide { IfSome result HasWord }
    ensures none { IfNone result ((r : ℕ) → 1 ≤ r → r ≤ 31 → r ≢ 2 → operation ≢ 80 + r) }
{
    if operation <= DW_OP_reg0 || operation > DW_OP_reg0 + 31 || operation == DW_OP_reg0 + 2 {
        return None;
    }
    Some(Place::Register(physical((operation - DW_OP_reg0) as u32)?))
}

/// The piece at the front, after pieces up to a byte of the variable, and the bytes after it. `None` if and only if
/// there is none.
fn split_piece(from: u32, bytes: &[u8]) -> Option<(Part, &[u8])>
    ensures some { IfSome result (λ r. bytes.now ≡ piece from r.0 ++ r.1.now) }
    ensures is { IfSome result (λ r. IsPiece from r.0) }
    ensures wide { IfSome result (λ r. HasWord r.0.place) }
    ensures none { IfNone result ((p : Part) (rest : List ℕ) → IsPiece from p → HasWord p.place → bytes.now ≢ piece
        from p ++ rest) }
{
    let (offset, after) = split_gap(from, bytes)?;
    let Some((place, after)) = split_place(after) else {
        return None;
    };
    let (operation, after) = after.split_first()?;
    if *operation != DW_OP_piece {
        return None;
    }
    let (length, rest) = split_uleb(after)?;
    if length == 0 || length > LONGEST_PIECE || length > (u32::MAX - offset) as u64 {
        return None;
    }
    let part = Part {
        offset,
        length: length as u32,
        place,
    };
    Some((part, rest))
}

/// The offset in the variable after the gap at the front, and the bytes after it. Without a gap it is the end of the
/// pieces before. `None` if and only if there is a gap that no piece can follow.
fn split_gap(from: u32, bytes: &[u8]) -> Option<(u32, &[u8])>
    ensures some { IfSome result (λ r. bytes.now ≡ gap from r.0 ++ r.1.now) }
    ensures onward { IfSome result (λ r. from ≤ r.0) }
    ensures only { IfSome result (λ r. (offset : ℕ) (rest : List ℕ) → from ≤ offset → BeginsNoPiece rest → bytes.now ≡
        gap from offset ++ rest
        → (offset ≡ r.0) × (rest ≡ r.1.now)) }
    ensures none { IfNone result ((offset : ℕ) (rest : List ℕ) → from ≤ offset → offset < 2 ^ 32 → BeginsNoPiece rest
        → bytes.now ≢ gap from offset ++ rest) }
{
    let Some((operation, after)) = bytes.split_first() else {
        return Some((from, bytes));
    };
    if *operation != DW_OP_piece {
        return Some((from, bytes));
    }
    let (size, rest) = split_uleb(after)?;
    if size == 0 || size > (u32::MAX - from) as u64 {
        None
    } else {
        Some((from + size as u32, rest))
    }
}
