//! Numbers of these types fit their fields.

ghost use Rattle.std.specs.Prelude.{All};
ghost use Rattle.elf_object.specs.Grammar.{IsName};
ghost use Rattle.elf_object.specs.Relocations.{FitsRelocation};
ghost use Rattle.elf_object.specs.Symbols.{FitsSymbol};

use elf_linkable::section::LinkableSection;
use elf_object::relocations::Relocation;
use elf_object::symbols::Symbol;

/// The fields of a relocation fit.
fn fits(relocation: &Relocation)
    ensures { FitsRelocation relocation.now }
{
    let _offset = relocation.offset;
    let _symbol = relocation.symbol;
    let _type = relocation.relocation_type;
    let _addend = relocation.addend;
}

/// The fields of relocations fit.
fn fit(relocations: &[Relocation])
    ensures { All FitsRelocation relocations.now }
{
    for relocation in relocations {
        fits(relocation);
    }
}

/// The fields of the relocations of sections fit.
pub fn sections_fit(sections: &[LinkableSection])
    ensures { All (λ s. All FitsRelocation s.content.relocations) sections.now }
{
    for section in sections {
        fit(section.content.relocations.as_slice());
    }
}

/// The fields of a symbol fit.
fn symbol_fits(symbol: &Symbol)
    requires { IsName symbol.now.name }
    ensures { FitsSymbol symbol.now }
{
    let _section = symbol.section;
    let _value = symbol.value;
    let _size = symbol.size;
}

/// The fields of symbols fit.
pub fn symbols_fit(symbols: &[Symbol])
    requires { All (λ s. IsName s.name) symbols.now }
    ensures { All FitsSymbol symbols.now }
{
    for symbol in symbols {
        symbol_fits(symbol);
    }
}
