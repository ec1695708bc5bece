//! The reader of symbols (gABI, "Symbol Table").

ghost use Rattle.std.specs.Prelude.{◌≡◌, ◌*◌, ◌-◌, ◌≤◌, List, length, IfOk, Some, Err, MatchResult};
ghost use Rattle.elf_object.specs.declared.symbols.Symbol.{Symbol};
ghost use Rattle.elf_object.specs.Symbols.{AreSymbols};
ghost use Rattle.elf_symbols.specs.declared.fault.SymbolsFault.{SymbolsFault};
ghost use Rattle.elf_symbols.specs.declared.symbols.SymbolsError.TheVariants.{Fault, Memory};
ghost use Rattle.elf_symbols.specs.FirstFault;
ghost use Rattle.elf_symbols.specs.FirstFault.{count_in};
ghost use Rattle.elf_symbols.specs.steps.Told;
ghost use Rattle.elf_symbols.specs.steps.Told.{symbol_told, symbols_told};

use crate::entry::{byte_at, entry};
use crate::fault::{SymbolsFault, first_fault, symbol_count};
use base_list::List;
use elf_object::constants::*;
use elf_object::fault::{behind, front, name_len};
use elf_object::number::{u16_at, u32_at, u64_at};
use elf_object::object::Name;
use elf_object::symbols::{Binding, Symbol, SymbolType};
use std::alloc::{AllocError, Global};

/// Symbols, in the order of the symbol table. That with index k has number k + 1.
pub type Symbols = List<Symbol>;

/// Why no symbols were read.
#[derive(Clone, Copy, Debug, PartialEq, Eq)]
pub enum SymbolsError {
    /// The bytes aren't those of symbols and of the table of their names. This is the first wrong field.
    Fault(SymbolsFault),
    /// Memory ran out.
    Memory,
}

impl From<AllocError> for SymbolsError {
    ghost from_gives = { λ _ e. e ≡ Memory };

    fn from(_: AllocError) -> SymbolsError {
        SymbolsError::Memory
    }
}

/// The symbols of a symbol table and of the table of their names, as `write_symbols` and `write_symbol_names` write
/// them: each field as it should be, the local symbols first, the names in order, and no two in the same bytes.
pub fn read_symbols(alloc: Global, table: &[u8], names: &[u8]) -> Result<Symbols, SymbolsError>
    // The bytes are those of what is read.
    ensures symbols { IfOk result (λ ss. AreSymbols ss table.now names.now) }
    // Of the bytes of symbols these are read, as long as there is memory.
    ensures only { (ss : List Symbol) → AreSymbols ss table.now names.now
        → MatchResult result (λ read. read ≡ ss) (λ e. e ≡ Memory) }
    // Of anything else the error is the first wrong field.
    ensures fault { (fault : SymbolsFault) → result ≡ Err (Fault fault)
        → FirstFault.first_fault table.now names.now ≡ Some fault }
{
    match first_fault(table, names) {
        Some(fault) => Err(SymbolsError::Fault(fault)),
        None => Ok(all_symbols(alloc, table, names)?),
    }
}

/// The symbols after the null one.
fn all_symbols(alloc: Global, table: &[u8], names: &[u8]) -> Result<Symbols, AllocError>
    ensures { IfOk result (λ ss. ss ≡ symbols_told names.now table.now (count_in table.now)) }
{
    let count = symbol_count(table);
    some_symbols(alloc, table, names, count)
}

/// So many symbols after the null one.
fn some_symbols(
    alloc: Global,
    table: &[u8],
    names: &[u8],
    count: usize,
) -> Result<Symbols, AllocError>
    requires { 24 * count ≤ length table.now - 24 }
    ensures { IfOk result (λ ss. ss ≡ symbols_told names.now table.now count) }
{
    let mut symbols = Symbols::new(alloc);
    for index in 0..count {
        symbols.push(symbol(alloc, names, entry(table, 24 * (index + 1)))?)?;
    }
    Ok(symbols)
}

/// The symbol at the front of bytes. Its name is the string at the offset st_name in the table of names.
fn symbol(alloc: Global, names: &[u8], bytes: &[u8]) -> Result<Symbol, AllocError>
    requires { 24 ≤ length bytes.now }
    ensures { IfOk result (λ s. s ≡ symbol_told names.now bytes.now) }
{
    let name_at = u32_at(bytes, 0);
    let len = name_len(names, name_at as usize);
    let info = byte_at(bytes, 4);
    Ok(Symbol {
        name: Name::from_slice(alloc, front(behind(names, u64::from(name_at)), len as u64))?,
        binding: binding_of(info / 16),
        symbol_type: type_of(info % 16),
        section: u16_at(bytes, 6),
        value: u64_at(bytes, 8),
        size: u64_at(bytes, 16),
    })
}

/// The binding of a number from 0 to 2.
fn binding_of(number: u8) -> Binding
    ensures { result ≡ Told.binding_of number }
{
    if number == STB_LOCAL {
        Binding::Local
    } else if number == STB_GLOBAL {
        Binding::Global
    } else {
        Binding::Weak
    }
}

/// The type of a symbol with one of the numbers 0, 2 and 3.
fn type_of(number: u8) -> SymbolType
    ensures { result ≡ Told.type_of number }
{
    if number == STT_NOTYPE {
        SymbolType::NoType
    } else if number == STT_FUNC {
        SymbolType::Function
    } else {
        SymbolType::Section
    }
}
