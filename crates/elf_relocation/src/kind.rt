//! The kinds of relocations, and their numbers.

ghost use Rattle.std.specs.Prelude.{◌≡◌};
ghost use Rattle.elf_relocation.specs.Fields.{field_size, is_in_range, value_of};
ghost use Rattle.elf_relocation.specs.Kinds.{kind_of, number_of};

use crate::constants::{R_RISCV_HI20, R_RISCV_LO12_I, R_RISCV_LO12_S};
use elf_object::constants::{R_RISCV_32, R_RISCV_64, R_RISCV_CALL_PLT};

/// What a relocation's field is, and how its value is computed (psABI, "Relocations").
#[derive(Clone, Copy, Debug, PartialEq, Eq)]
pub enum RelocationKind {
    /// An address in four bytes (`R_RISCV_32`).
    Address32,
    /// An address in eight bytes (`R_RISCV_64`).
    Address64,
    /// The distance to an address, in the words of a call, AUIPC and JALR (`R_RISCV_CALL_PLT`).
    Call,
    /// The upper half of an address, in a word of the U format (`R_RISCV_HI20`).
    Upper,
    /// The lower half of an address, in a word of the I format (`R_RISCV_LO12_I`).
    Lower,
    /// The lower half of an address, in a word of the S format (`R_RISCV_LO12_S`).
    StoreLower,
}

impl RelocationKind {
    /// The number of the kind, as relocations have it.
    pub fn number(self) -> u32
        ensures { result ≡ number_of self }
    {
        match self {
            RelocationKind::Address32 => R_RISCV_32,
            RelocationKind::Address64 => R_RISCV_64,
            RelocationKind::Call => R_RISCV_CALL_PLT,
            RelocationKind::Upper => R_RISCV_HI20,
            RelocationKind::Lower => R_RISCV_LO12_I,
            RelocationKind::StoreLower => R_RISCV_LO12_S,
        }
    }

    /// The number of bytes of the field.
    pub fn size(self) -> usize
        ensures { result ≡ field_size self }
    {
        match self {
            RelocationKind::Address32
            | RelocationKind::Upper
            | RelocationKind::Lower
            | RelocationKind::StoreLower => 4,
            RelocationKind::Address64 | RelocationKind::Call => 8,
        }
    }

    /// The value of a relocation of the kind, by the address of its symbol, its addend, and the address of its field.
    pub fn value(self, symbol: u64, addend: u64, place: u64) -> u64
        ensures { result ≡ value_of self symbol addend place }
    {
        match self {
            RelocationKind::Call => symbol.wrapping_add(addend).wrapping_sub(place),
            RelocationKind::Address32
            | RelocationKind::Address64
            | RelocationKind::Upper
            | RelocationKind::Lower
            | RelocationKind::StoreLower => symbol.wrapping_add(addend),
        }
    }

    /// Whether the field can have a value.
    pub fn is_in_range(self, value: u64) -> bool
        ensures { result ≡ is_in_range self value }
    {
        match self {
            RelocationKind::Address32 => value < 0x1_0000_0000,
            RelocationKind::Call | RelocationKind::Upper => {
                value.wrapping_add(0x8000_0800) < 0x1_0000_0000
            }
            RelocationKind::Address64 | RelocationKind::Lower | RelocationKind::StoreLower => true,
        }
    }
}

/// The kind of a number, if it is one of these.
pub fn kind_of(number: u32) -> Option<RelocationKind>
    ensures { result ≡ kind_of number }
{
    if number == R_RISCV_32 {
        Some(RelocationKind::Address32)
    } else if number == R_RISCV_64 {
        Some(RelocationKind::Address64)
    } else if number == R_RISCV_CALL_PLT {
        Some(RelocationKind::Call)
    } else if number == R_RISCV_HI20 {
        Some(RelocationKind::Upper)
    } else if number == R_RISCV_LO12_I {
        Some(RelocationKind::Lower)
    } else if number == R_RISCV_LO12_S {
        Some(RelocationKind::StoreLower)
    } else {
        None
    }
}
