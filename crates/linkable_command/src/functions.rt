//! The symbols of functions, with the bindings of their linkages.

ghost use Rattle.std.specs.Prelude.{◌≡◌, ◌≤◌, ◌^◌, length, map, OnOk, IfOk, IsErrOf};
ghost use Rattle.dwarf_line_table.specs.Files.{first_uses};
ghost use Rattle.elf_object.specs.Symbols.{is_local};
ghost use Rattle.object_command.specs.Object.{defined_symbol, have_one_name};
ghost use Rattle.linkable_command.specs.Symbols;
ghost use Rattle.linkable_command.specs.Symbols.{binding_by, binding_named, bound_symbols, with_binding};

use dwarf_line_table::names::NameTable;
use elf_linkable::section::Symbols as SymbolList;
use elf_object::symbols::{Binding, Symbol, SymbolType};
use listing_text::output::ListedFunction;
use object_command::object::ObjectError;
use object_command::symbols::{MAX_SYMBOLS, TEXT, number};
use read_linkage::linkage::{Linkage, LinkedName};
use read_linkage::linkages::linkage_named;
use std::alloc::{AllocError, Global};

/// Adds the symbols of functions, of those that are local or of all others, unless they have a symbol's name.
pub(crate) fn push_bound(
    alloc: Global,
    names: &mut NameTable,
    symbols: &mut SymbolList,
    local: bool,
    linkages: &[LinkedName],
    functions: &[ListedFunction],
) -> Result<(), ObjectError>
    requires { names.old ≡ map (λ s. s.name) symbols.old }
    ensures names { OnOk result (names.new ≡ map (λ s. s.name) symbols.new) }
    ensures symbols { OnOk result
        (symbols.new ≡ first_uses have_one_name symbols.old (bound_symbols local linkages.now functions.now)) }
    ensures too_large { IsErrOf result ObjectError.TooLarge →
        2 ^ 27 ≤ length (first_uses have_one_name symbols.old (bound_symbols local linkages.now functions.now)) }
    ensures named { IsErrOf result ObjectError.SymbolName → ⊥ }
{
    for function in functions {
        let binding = binding_named(linkages, function);
        if is_wanted(local, is_local(binding)) {
            if symbols.len() >= MAX_SYMBOLS {
                return Err(ObjectError::TooLarge);
            }
            number(alloc, names, symbols, function_symbol(function, binding)?)?;
        }
    }
    Ok(())
}

/// The binding of the symbol of a function.
fn binding_named(linkages: &[LinkedName], function: &ListedFunction) -> Binding
    ensures { result ≡ binding_named linkages.now function.now.name }
{
    binding_by(linkage_named(linkages, function.name.as_slice()))
}

/// The symbol of a function, with a binding.
fn function_symbol(function: &ListedFunction, binding: Binding) -> Result<Symbol, AllocError>
    ensures { IfOk result (λ symbol. symbol ≡ with_binding binding (defined_symbol function.now)) }
{
    Ok(Symbol {
        name: function.name.copy()?,
        binding,
        symbol_type: SymbolType::Function,
        section: TEXT,
        value: u64::from(function.low),
        size: u64::from(function.high.saturating_sub(function.low)),
    })
}

/// The binding of a function's symbol by its linkage.
fn binding_by(linkage: Option<Linkage>) -> Binding
    ensures { result ≡ binding_by linkage }
{
    match linkage {
        None => Binding::Global,
        Some(Linkage::Local) => Binding::Local,
        Some(Linkage::Weak) => Binding::Weak,
    }
}

/// Whether a binding is that of local symbols.
fn is_local(binding: Binding) -> bool
    ensures { result ≡ is_local binding }
{
    match binding {
        Binding::Local => true,
        Binding::Global | Binding::Weak => false,
    }
}

/// Whether a symbol is wanted, where local ones are, or all others.
fn is_wanted(local: bool, is: bool) -> bool
    ensures { result ≡ Symbols.is_wanted local is }
{
    if local { is } else { !is }
}
