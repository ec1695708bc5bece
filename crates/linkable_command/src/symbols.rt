//! The symbols of functions and of the names to which their code refers, and the relocations of the code.

ghost use Rattle.std.specs.Prelude.{◌≡◌, ◌<◌, ◌≤◌, ◌^◌, ◌+◌, length, map, OnOk, IfOk, IsErrOf};
ghost use Rattle.dwarf_line_table.specs.Files.{first_uses};
ghost use Rattle.object_command.specs.Object.{have_one_name};
ghost use Rattle.linkable_command.specs.References.{references};
ghost use Rattle.linkable_command.specs.Symbols.{code_relocations, named_symbols, relocation_by, undefined_symbol};

use crate::functions::push_bound;
use crate::reference::Reference;
use dwarf_line_table::names::NameTable;
use elf_content::content::Relocations;
use elf_linkable::section::Symbols;
use elf_object::constants::SHN_UNDEF;
use elf_object::relocations::Relocation;
use elf_object::symbols::{Binding, Symbol, SymbolType};
use listing_text::output::ListedFunction;
use object_command::object::ObjectError;
use object_command::symbols::{MAX_SYMBOLS, number};
use read_linkage::linkage::LinkedName;
use std::alloc::{AllocError, Global};

/// The symbols of functions with these linkages and of the names to which they refer, and the relocations of these
/// references, where the symbols stand behind `before` others. The error `TooLarge` is that there are more than 2^27 symbols.
pub fn link(
    alloc: Global,
    before: u32,
    linkages: &[LinkedName],
    functions: &[ListedFunction],
    referred: &[Reference],
) -> Result<(Symbols, Relocations), ObjectError>
    requires referred { referred.now ≡ references functions.now }
    requires few { before < 2 ^ 15 }
    ensures symbols { IfOk result (λ r. r.0 ≡ named_symbols linkages.now functions.now) }
    ensures relocations { IfOk result (λ r. r.1 ≡ code_relocations before linkages.now functions.now) }
    ensures too_large { IsErrOf result ObjectError.TooLarge → 2 ^ 27 ≤ length (named_symbols linkages.now functions.now) }
    ensures named { IsErrOf result ObjectError.SymbolName → ⊥ }
{
    let mut names = NameTable::new(alloc);
    let mut symbols = Symbols::new(alloc);
    push_bound(alloc, &mut names, &mut symbols, true, linkages, functions)?;
    push_bound(alloc, &mut names, &mut symbols, false, linkages, functions)?;
    let relocations = push_references(alloc, before, &mut names, &mut symbols, referred)?;
    Ok((symbols, relocations))
}

/// Adds the symbols of names to which code refers, unless they are there, and makes the relocations.
#[tactic(auto, using(crate::proofs::Referred::one_more))]
fn push_references(
    alloc: Global,
    before: u32,
    names: &mut NameTable,
    symbols: &mut Symbols,
    referred: &[Reference],
) -> Result<Relocations, ObjectError>
    requires names { names.old ≡ map (λ s. s.name) symbols.old }
    requires few { before < 2 ^ 15 }
    ensures symbols { OnOk result
        (symbols.new ≡ first_uses have_one_name symbols.old (map undefined_symbol referred.now)) }
    ensures relocations { IfOk result (λ rs. rs ≡ map (relocation_by before symbols.new) referred.now) }
    ensures too_large { IsErrOf result ObjectError.TooLarge →
        2 ^ 27 ≤ length (first_uses have_one_name symbols.old (map undefined_symbol referred.now)) }
    ensures named { IsErrOf result ObjectError.SymbolName → ⊥ }
{
    let mut relocations = Relocations::new(alloc);
    for reference in referred {
        if symbols.len() >= MAX_SYMBOLS {
            return Err(ObjectError::TooLarge);
        }
        let index = number(alloc, names, symbols, undefined_symbol(reference)?)?;
        relocations.push(Relocation {
            offset: u64::from(reference.address),
            symbol: before + (1 + index),
            relocation_type: reference.kind.number(),
            addend: reference.addend,
        })?;
    }
    Ok(relocations)
}

/// The symbol of a name that the object doesn't define.
fn undefined_symbol(reference: &Reference) -> Result<Symbol, AllocError>
    ensures { IfOk result (λ symbol. symbol ≡ undefined_symbol reference.now) }
{
    Ok(Symbol {
        name: reference.name.copy()?,
        binding: Binding::Global,
        symbol_type: SymbolType::NoType,
        section: SHN_UNDEF,
        value: 0,
        size: 0,
    })
}
