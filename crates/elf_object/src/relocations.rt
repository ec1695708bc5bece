//! The bytes of relocations with addends: the content of a section (gABI, "Relocation").

ghost use Rattle.std.specs.Prelude.{◌≡◌, ◌++◌, OnOk, IfOk};
ghost use Rattle.elf_object.specs.Relocations;
ghost use Rattle.elf_object.specs.Relocations.{relocation_table};

use crate::object::Bytes;
use base_list::List;
use std::alloc::{AllocError, Global};

/// A relocation of a section's bytes.
#[derive(Clone, Copy, Debug, PartialEq, Eq)]
pub struct Relocation {
    /// The offset in the section of the first byte that is relocated, in bytes.
    pub offset: u64,
    /// The number of the symbol, from 1.
    pub symbol: u32,
    /// How the bytes are computed, a constant `R_RISCV_..`.
    pub relocation_type: u32,
    /// What is added to the symbol's address, modulo 2^64 (r_addend, a signed number in two's complement).
    pub addend: u64,
}

/// The bytes of relocations, in order. The error is out of memory.
pub fn write_relocations(alloc: Global, relocations: &[Relocation]) -> Result<Bytes, AllocError>
    ensures { IfOk result (λ bytes. bytes ≡ relocation_table relocations.now) }
{
    let mut out = Vec::new(alloc);
    for relocation in relocations {
        push_relocation(&mut out, relocation)?;
    }
    Ok(List::from(out))
}

/// Appends a relocation.
#[tactic(auto, unfolding(crate::specs::Relocations::relocation))]
fn push_relocation(out: &mut Vec<u8>, relocation: &Relocation) -> Result<(), AllocError>
    ensures { OnOk result (out.new.items ≡ out.old.items ++ Relocations.relocation relocation.now) }
{
    out.extend_from_slice(&relocation.offset.to_le_bytes())?;
    out.extend_from_slice(&relocation.relocation_type.to_le_bytes())?;
    out.extend_from_slice(&relocation.symbol.to_le_bytes())?;
    out.extend_from_slice(&relocation.addend.to_le_bytes())?;
    Ok(())
}
