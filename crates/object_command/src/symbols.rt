//! The symbols of functions and of call sites, and the relocations of these.

ghost use Rattle.std.specs.Prelude.{◌≡◌, ◌++◌, ◌<◌, ◌≤◌, ◌^◌, ◌+◌, ℕ, List, length, map, OnOk, IfOk, IsErrOf};
ghost use Rattle.std.specs.List.{position_or_len};
ghost use Rattle.dwarf_line_table.specs.Files.{with_new, first_uses};
ghost use Rattle.elf_object.specs.declared.symbols.Symbol.{Symbol};
ghost use Rattle.object_command.specs.Calls;
ghost use Rattle.object_command.specs.Object.{defined_symbol, undefined_symbol, have_one_name, symbols_of};
ghost use Rattle.object_command.specs.Object.{relocation_of, relocations_of};

use crate::calls::CallSite;
use crate::object::ObjectError;
use base_list::List;
use dwarf_line_table::names::NameTable;
use elf_object::constants::{R_RISCV_CALL_PLT, SHN_UNDEF};
use elf_object::relocations::Relocation;
use elf_object::symbols::{Binding, Symbol, SymbolType};
use listing_text::output::ListedFunction;
use std::alloc::{AllocError, Global};

/// Symbols, in the order of the symbol table. That with index k has number k + 1.
pub type Symbols = List<Symbol>;
/// Relocations, in the order of the relocated bytes.
pub type Relocations = List<Relocation>;

/// The index of `.text` in the section header table.
pub const TEXT: u16 = 1;
/// The most symbols of an object. With more its file has 2^31 bytes or more.
pub const MAX_SYMBOLS: usize = 0x800_0000;

/// The symbols of functions and of their call sites, and the relocations of the call sites. The error `TooLarge` is
/// that there are more than 2^27 symbols.
pub fn link(
    alloc: Global,
    functions: &[ListedFunction],
    sites: &[CallSite],
) -> Result<(Symbols, Relocations), ObjectError>
    requires { sites.now ≡ Calls.call_sites functions.now }
    ensures symbols { IfOk result (λ r. r.0 ≡ symbols_of functions.now) }
    ensures relocations { IfOk result (λ r. r.1 ≡ relocations_of functions.now) }
    ensures too_large { IsErrOf result ObjectError.TooLarge → 2 ^ 27 ≤ length (symbols_of functions.now) }
    ensures named { IsErrOf result ObjectError.SymbolName → ⊥ }
{
    let mut names = NameTable::new(alloc);
    let mut symbols = Symbols::new(alloc);
    push_functions(alloc, &mut names, &mut symbols, functions)?;
    let relocations = push_sites(alloc, &mut names, &mut symbols, sites)?;
    Ok((symbols, relocations))
}

/// Adds the symbols of functions, unless they have a symbol's name.
pub fn push_functions(
    alloc: Global,
    names: &mut NameTable,
    symbols: &mut Symbols,
    functions: &[ListedFunction],
) -> Result<(), ObjectError>
    requires { names.old ≡ map (λ s. s.name) symbols.old }
    ensures names { OnOk result (names.new ≡ map (λ s. s.name) symbols.new) }
    ensures symbols { OnOk result
        (symbols.new ≡ first_uses have_one_name symbols.old (map defined_symbol functions.now)) }
    ensures too_large { IsErrOf result ObjectError.TooLarge →
        2 ^ 27 ≤ length (first_uses have_one_name symbols.old (map defined_symbol functions.now)) }
    ensures named { IsErrOf result ObjectError.SymbolName → ⊥ }
{
    for function in functions {
        if symbols.len() >= MAX_SYMBOLS {
            return Err(ObjectError::TooLarge);
        }
        number(alloc, names, symbols, defined_symbol(function)?)?;
    }
    Ok(())
}

/// Adds the symbols of call sites, unless they have a symbol's name, and makes the relocations.
fn push_sites(
    alloc: Global,
    names: &mut NameTable,
    symbols: &mut Symbols,
    sites: &[CallSite],
) -> Result<Relocations, ObjectError>
    requires { names.old ≡ map (λ s. s.name) symbols.old }
    ensures symbols { OnOk result
        (symbols.new ≡ first_uses have_one_name symbols.old (map undefined_symbol sites.now)) }
    ensures relocations { IfOk result (λ rs. rs ≡ map (relocation_of symbols.new) sites.now) }
    ensures too_large { IsErrOf result ObjectError.TooLarge →
        2 ^ 27 ≤ length (first_uses have_one_name symbols.old (map undefined_symbol sites.now)) }
    ensures named { IsErrOf result ObjectError.SymbolName → ⊥ }
{
    let mut relocations = Relocations::new(alloc);
    for site in sites {
        if symbols.len() >= MAX_SYMBOLS {
            return Err(ObjectError::TooLarge);
        }
        let index = number(alloc, names, symbols, undefined_symbol(site)?)?;
        relocations.push(Relocation {
            offset: u64::from(site.address),
            symbol: index + 1,
            relocation_type: R_RISCV_CALL_PLT,
            addend: 0,
        })?;
    }
    Ok(relocations)
}

/// The index of the symbol with this one's name, from 0. If there is none, this one is added. `names` is the symbols'
/// names.
pub fn number(
    alloc: Global,
    names: &mut NameTable,
    symbols: &mut Symbols,
    symbol: Symbol,
) -> Result<u32, AllocError>
    requires names { names.old ≡ map (λ s. s.name) symbols.old }
    requires few { length symbols.old < 2 ^ 27 }
    ensures names { OnOk result (names.new ≡ map (λ s. s.name) symbols.new) }
    ensures symbols { OnOk result (symbols.new ≡ with_new have_one_name symbols.old symbol) }
    // It is its index, however many join later.
    ensures index { (more : List Symbol) →
        IfOk result (λ n. n ≡ position_or_len (have_one_name symbol) (symbols.new ++ more)) }
    ensures few { IfOk result (λ n. n ≤ 2 ^ 27) }
{
    let index = names.number(alloc, symbol.name.as_slice())?;
    if index as usize == symbols.len() {
        symbols.push(symbol)?;
    }
    Ok(index)
}

/// The symbol of a function.
fn defined_symbol(function: &ListedFunction) -> Result<Symbol, AllocError>
    ensures { IfOk result (λ symbol. symbol ≡ defined_symbol function.now) }
{
    Ok(Symbol {
        name: function.name.copy()?,
        binding: Binding::Global,
        symbol_type: SymbolType::Function,
        section: TEXT,
        value: u64::from(function.low),
        size: u64::from(function.high.saturating_sub(function.low)),
    })
}

/// The symbol of a called function that the object doesn't define.
fn undefined_symbol(site: &CallSite) -> Result<Symbol, AllocError>
    ensures { IfOk result (λ symbol. symbol ≡ undefined_symbol site.now) }
{
    Ok(Symbol {
        name: site.name.copy()?,
        binding: Binding::Global,
        symbol_type: SymbolType::NoType,
        section: SHN_UNDEF,
        value: 0,
        size: 0,
    })
}
