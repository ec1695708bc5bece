//! The sections that a linker places.

ghost use Rattle.std.specs.Prelude.{◌≡◌, ◌<◌, ◌^◌, length, IfOk};
ghost use Rattle.elf_linkable.specs.Linkable;
ghost use Rattle.elf_linkable.specs.Linkable.{section_symbols};

use base_list::List;
use elf_content::content::Content;
use elf_object::object::Name;
use elf_object::symbols::{Binding, Symbol, SymbolType};
use std::alloc::{AllocError, Global};

/// A section of the program's own content.
#[derive(Debug, Drop)]
pub struct LinkableSection {
    /// Its name, without a zero byte.
    pub name: Name,
    /// How it is used, a sum of constants `SHF_..` (sh_flags).
    pub flags: u64,
    /// What its address is a multiple of, in bytes (sh_addralign).
    pub alignment: u64,
    /// Its bytes and their relocations.
    pub content: Content,
}

/// Sections, in order. The index of the first is 1.
pub type LinkableSections = List<LinkableSection>;
/// Symbols, in the order of the symbol table.
pub type Symbols = List<Symbol>;

/// The symbols of sections, in their order. Each has its section's index for its number.
pub fn section_symbols(alloc: Global, sections: &[LinkableSection]) -> Result<Symbols, AllocError>
    requires { length sections.now < 2 ^ 15 }
    ensures { IfOk result (λ symbols. symbols ≡ section_symbols 1 sections.now) }
{
    let mut symbols = Symbols::new(alloc);
    for index in 0..sections.len() {
        symbols.push(section_symbol(alloc, (index + 1) as u16))?;
    }
    Ok(symbols)
}

/// The symbol of the section of an index.
fn section_symbol(alloc: Global, index: u16) -> Symbol
    ensures { result ≡ Linkable.section_symbol index }
{
    Symbol {
        name: Name::new(alloc),
        binding: Binding::Local,
        symbol_type: SymbolType::Section,
        section: index,
        value: 0,
        size: 0,
    }
}
