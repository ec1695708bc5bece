//! The reader of relocations with addends (gABI, "Relocation").

ghost use Rattle.std.specs.Prelude.{◌≡◌, ◌*◌, ◌≤◌, ℕ, List, length, IfOk, Some, Err, MatchResult};
ghost use Rattle.elf_object.specs.declared.relocations.Relocation.{Relocation};
ghost use Rattle.elf_object.specs.Relocations.{AreRelocations};
ghost use Rattle.elf_symbols.specs.declared.relocations.RelocationsError.TheVariants.{Fault, Memory};
ghost use Rattle.elf_symbols.specs.FirstFault.{relocations_fault};
ghost use Rattle.elf_symbols.specs.steps.Told.{relocation_told, relocations_told};

use crate::entry::entry;
use base_list::List;
use elf_object::number::{u32_at, u64_at};
use elf_object::relocations::Relocation;
use std::alloc::{AllocError, Global};

/// Relocations, in their order.
pub type Relocations = List<Relocation>;

/// Why no relocations were read.
#[derive(Clone, Copy, Debug, PartialEq, Eq)]
pub enum RelocationsError {
    /// The last relocation isn't whole. It begins at this byte, counted from 0.
    Fault(usize),
    /// Memory ran out.
    Memory,
}

impl From<AllocError> for RelocationsError {
    ghost from_gives = { λ _ e. e ≡ Memory };

    fn from(_: AllocError) -> RelocationsError {
        RelocationsError::Memory
    }
}

/// The relocations of a section's bytes, as `write_relocations` writes them.
pub fn read_relocations(alloc: Global, bytes: &[u8]) -> Result<Relocations, RelocationsError>
    // The bytes are those of what is read.
    ensures relocations { IfOk result (λ rs. AreRelocations rs bytes.now) }
    // Of the bytes of relocations these are read, as long as there is memory.
    ensures only { (rs : List Relocation) → AreRelocations rs bytes.now
        → MatchResult result (λ read. read ≡ rs) (λ e. e ≡ Memory) }
    // Of anything else the error is where the last one begins.
    ensures fault { (at : ℕ) → result ≡ Err (Fault at) → relocations_fault bytes.now ≡ Some at }
{
    match part_at(bytes) {
        Some(at) => Err(RelocationsError::Fault(at)),
        None => Ok(some_relocations(alloc, bytes, bytes.len() / 24)?),
    }
}

/// Where the last relocation begins, if it isn't whole.
fn part_at(bytes: &[u8]) -> Option<usize>
    ensures { result ≡ relocations_fault bytes.now }
{
    if bytes.len() % 24 == 0 {
        None
    } else {
        Some(bytes.len() - bytes.len() % 24)
    }
}

/// So many relocations.
fn some_relocations(alloc: Global, bytes: &[u8], count: usize) -> Result<Relocations, AllocError>
    requires { 24 * count ≤ length bytes.now }
    ensures { IfOk result (λ rs. rs ≡ relocations_told bytes.now count) }
{
    let mut relocations = Relocations::new(alloc);
    for index in 0..count {
        relocations.push(relocation(entry(bytes, 24 * index)))?;
    }
    Ok(relocations)
}

/// The relocation at the front of bytes.
fn relocation(bytes: &[u8]) -> Relocation
    requires { 24 ≤ length bytes.now }
    ensures { result ≡ relocation_told bytes.now }
{
    Relocation {
        offset: u64_at(bytes, 0),
        symbol: u32_at(bytes, 12),
        relocation_type: u32_at(bytes, 8),
        addend: u64_at(bytes, 16),
    }
}
