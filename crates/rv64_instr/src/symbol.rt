//! Symbols, whose addresses are known when a program is linked.

ghost use Rattle.std.specs.Prelude.{◌≡◌, IfOk};

use crate::name::Name;
use base_list::List;
use std::alloc::{AllocError, Global};

/// What an address is of that is known when a program is linked.
#[derive(Debug, Drop)]
pub enum Symbol {
    /// The global of this name.
    Global(Name),
    /// The constant of this number in the function's constant pool (LLVM: `MachineConstantPool`).
    Constant(u32),
}

/// The address of a symbol plus a number of bytes, modulo 2^64.
#[derive(Debug, Drop)]
pub struct LinkedAddress {
    pub symbol: Symbol,
    /// The number of bytes that is added (RISC-V ELF psABI: the addend of a relocation).
    pub addend: i32,
}

/// The half of an address that an instruction has (RISC-V ELF psABI, "Absolute Addresses").
#[derive(Clone, Copy, Debug, PartialEq, Eq)]
pub enum Half {
    /// The upper 20 of 32 bits, for `LUI` (LLVM: `MO_HI`; assembler: `%hi`).
    Upper,
    /// The lower 12 bits as a signed number, for an immediate (LLVM: `MO_LO`; assembler: `%lo`).
    Lower,
}

/// The addresses of symbols, in pairs. The first pair of a symbol counts, and a symbol without one has an address by its name.
pub type SymbolAddresses = List<(Symbol, u64)>;

/// Equal addresses of symbols.
pub fn copy_addresses(
    alloc: Global,
    symbols: &SymbolAddresses,
) -> Result<SymbolAddresses, AllocError>
    ensures { IfOk result (λ copied. copied ≡ symbols.now) }
{
    let mut copied = SymbolAddresses::new(alloc);
    for pair in symbols.as_slice() {
        copied.push((pair.0.copy()?, pair.1))?;
    }
    Ok(copied)
}

impl Symbol {
    /// An equal symbol.
    pub fn copy(&self) -> Result<Symbol, AllocError>
        ensures { IfOk result (λ copied. copied ≡ self.now) }
    {
        match self {
            Symbol::Global(name) => Ok(Symbol::Global(name.copy()?)),
            Symbol::Constant(number) => Ok(Symbol::Constant(*number)),
        }
    }
}

impl LinkedAddress {
    /// An equal address.
    pub fn copy(&self) -> Result<LinkedAddress, AllocError>
        ensures { IfOk result (λ copied. copied ≡ self.now) }
    {
        Ok(LinkedAddress {
            symbol: self.symbol.copy()?,
            addend: self.addend,
        })
    }
}
