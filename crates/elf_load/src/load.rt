//! Loading machine code.

ghost use Rattle.std.specs.Prelude.{◌≡◌, ℕ, IfOk, Err};
ghost use Rattle.elf_load.specs.declared.load.LoadError.TheVariants.{OutOfReach, Memory};
ghost use Rattle.elf_load.specs.Load;
ghost use Rattle.elf_load.specs.Load.{IsLoadable, IsLoaded, IsFirstOutOfReach};

use crate::relocate::relocate;
use crate::symbols::symbol_addresses;
use base_list::List;
use elf_object::object::Bytes;
use elf_object::relocations::Relocation;
use elf_object::symbols::Symbol;
use std::alloc::{AllocError, Global};

/// Why machine code wasn't loaded.
#[derive(Clone, Copy, Debug, PartialEq, Eq)]
pub enum LoadError {
    /// The symbol of this relocation, counted from 0, is out of reach of its call. None before it is.
    OutOfReach(usize),
    /// Memory ran out.
    Memory,
}

impl From<AllocError> for LoadError {
    ghost from_gives = { λ _ e. e ≡ Memory };

    fn from(_: AllocError) -> LoadError {
        LoadError::Memory
    }
}

/// The machine code of an object, from the address `base` on, with its call sites relocated. Its symbols are functions
/// of this code or undefined, and `undefined` has the addresses of those in their order, 0 where it has none. The
/// relocations are those of `R_RISCV_CALL_PLT` without an addend (psABI, "Relocations").
pub fn load(
    alloc: Global,
    text: &[u8],
    symbols: &[Symbol],
    relocations: &[Relocation],
    base: u64,
    undefined: &[u64],
) -> Result<Bytes, LoadError>
    requires { IsLoadable text.now symbols.now relocations.now base }
    // Each word outside of call sites is the text's. The two of a call site call the address of its symbol.
    ensures loaded { IfOk result (IsLoaded text.now relocations.now base (Load.addresses base undefined.now symbols.now)) }
    // A symbol is out of reach exactly where neither word can have the distance, and the first one is told.
    ensures out_of_reach { (k : ℕ) → result ≡ Err (OutOfReach k)
        → IsFirstOutOfReach relocations.now base (Load.addresses base undefined.now symbols.now) k }
{
    let addresses = symbol_addresses(alloc, symbols, base, undefined)?;
    let mut loaded = List::from_slice(alloc, text)?.into_vec();
    match relocate(
        loaded.as_mut_slice(),
        relocations,
        addresses.as_slice(),
        base,
    ) {
        Some(index) => Err(LoadError::OutOfReach(index)),
        None => Ok(List::from(loaded)),
    }
}
