//! Pieces one by one.

ghost use Rattle.std.specs.Prelude.{◌≡◌, ◌≤◌, length, take, drop, IfOk};
ghost use Rattle.elf_content.specs.declared.piece.Piece.TheVariants as piece;
ghost use Rattle.debug_placement.specs.Fields;

use base_list::List;
use elf_content::piece::{Field, Piece};
use elf_object::object::Bytes;
use elf_relocation::kind::RelocationKind;
use std::alloc::{AllocError, Global};

/// Pieces, in order.
pub type Pieces = List<Piece>;

/// The piece of bytes that stay.
pub fn fixed(alloc: Global, bytes: &[u8]) -> Result<Piece, AllocError>
    ensures { IfOk result (λ made. made ≡ piece.Fixed bytes.now) }
{
    Ok(Piece::Fixed(Bytes::from_slice(alloc, bytes)?))
}

/// The piece of the first bytes of a slice.
pub fn fixed_front(alloc: Global, bytes: &[u8], count: usize) -> Result<Piece, AllocError>
    requires { count ≤ length bytes.now }
    ensures { IfOk result (λ made. made ≡ piece.Fixed (take count bytes.now)) }
{
    fixed(alloc, &bytes[..count])
}

/// The piece of the bytes behind the first ones of a slice.
pub fn fixed_rest(alloc: Global, bytes: &[u8], count: usize) -> Result<Piece, AllocError>
    requires { count ≤ length bytes.now }
    ensures { IfOk result (λ made. made ≡ piece.Fixed (drop count bytes.now)) }
{
    fixed(alloc, &bytes[count..])
}

/// The field for an address in the section of the symbol of a number.
pub fn address_field(alloc: Global, symbol: u32, address: u64) -> Result<Piece, AllocError>
    ensures { IfOk result (λ made. made ≡ Fields.address_field symbol address) }
{
    Ok(Piece::Relocated(Field {
        kind: RelocationKind::Address64,
        symbol,
        addend: address,
        before: Bytes::from_slice(alloc, &[0; 8])?,
    }))
}

/// The field for an offset in such a section.
pub fn offset_field(alloc: Global, symbol: u32, offset: u32) -> Result<Piece, AllocError>
    ensures { IfOk result (λ made. made ≡ Fields.offset_field symbol offset) }
{
    Ok(Piece::Relocated(Field {
        kind: RelocationKind::Address32,
        symbol,
        addend: u64::from(offset),
        before: Bytes::from_slice(alloc, &[0; 4])?,
    }))
}
