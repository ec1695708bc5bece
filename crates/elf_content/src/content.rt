//! The bytes of pieces, and their relocations.

ghost use Rattle.std.specs.Prelude.{◌≡◌, ◌++◌, OnOk, IfOk};
ghost use Rattle.elf_content.specs.Content.{bytes_of, relocation_at, relocations_from, relocations_in, written};

use crate::piece::{Field, Piece};
use base_list::List;
use elf_object::object::Bytes;
use elf_object::relocations::Relocation;
use std::alloc::{AllocError, Global};

/// Relocations, in the order of their offsets.
pub type Relocations = List<Relocation>;

/// The content of a section, and how it is relocated.
#[derive(Debug, Drop)]
pub struct Content {
    /// Its bytes.
    pub bytes: Bytes,
    /// Its relocations.
    pub relocations: Relocations,
}

/// The content that pieces make, one behind the other. The error is out of memory.
pub fn make_content(alloc: Global, pieces: &[Piece]) -> Result<Content, AllocError>
    ensures bytes { IfOk result (λ c. c.bytes ≡ written pieces.now) }
    ensures relocations { IfOk result (λ c. c.relocations ≡ relocations_from 0 pieces.now) }
{
    let mut bytes = Vec::new(alloc);
    let mut relocations = Relocations::new(alloc);
    for piece in pieces {
        push_relocation(&mut relocations, bytes.len(), piece)?;
        push_bytes(&mut bytes, piece)?;
    }
    Ok(Content {
        bytes: List::from(bytes),
        relocations,
    })
}

/// Appends the bytes of a piece.
fn push_bytes(out: &mut Vec<u8>, piece: &Piece) -> Result<(), AllocError>
    ensures { OnOk result (out.new.items ≡ out.old.items ++ bytes_of piece.now) }
{
    match piece {
        Piece::Fixed(bytes) => out.extend_from_slice(bytes.as_slice())?,
        Piece::Relocated(field) => out.extend_from_slice(field.before.as_slice())?,
    }
    Ok(())
}

/// Appends the relocation of a piece at an offset, if it is a field.
fn push_relocation(out: &mut Relocations, at: usize, piece: &Piece) -> Result<(), AllocError>
    ensures { OnOk result (out.new ≡ out.old ++ relocations_in at piece.now) }
{
    match piece {
        Piece::Fixed(_) => Ok(()),
        Piece::Relocated(field) => out.push(relocation(at, field)),
    }
}

/// The relocation of a field at an offset.
fn relocation(at: usize, field: &Field) -> Relocation
    ensures { result ≡ relocation_at at field.now }
{
    Relocation {
        offset: at as u64,
        symbol: field.symbol,
        relocation_type: field.kind.number(),
        addend: field.addend,
    }
}
