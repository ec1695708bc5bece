//! The pieces of a section's content.

use elf_object::object::Bytes;
use elf_relocation::kind::RelocationKind;

/// Bytes that are relocated.
#[derive(Debug, Drop)]
pub struct Field {
    /// How they are relocated.
    pub kind: RelocationKind,
    /// The number of the symbol in the symbol table, from 1.
    pub symbol: u32,
    /// What is added to the symbol's address, modulo 2^64.
    pub addend: u64,
    /// What is written there: as many bytes as the kind says.
    pub before: Bytes,
}

/// A piece of a section's content.
#[derive(Debug, Drop)]
pub enum Piece {
    /// Bytes that stay as they are.
    Fixed(Bytes),
    /// A field.
    Relocated(Field),
}
