//! A law about the object of an output, the contract of a function that does nothing.

ghost use Rattle.std.specs.Prelude.{◌≡◌, List};
ghost use Rattle.listing_text.specs.declared.output.ListedFunction.{ListedFunction};
ghost use Rattle.elf_object.specs.Symbols.{LocalsFirst, first_global};
ghost use Rattle.object_command.specs.Object.{symbols_of};

/// As the gABI wants, no local symbol stands behind another one, and sh_info of the section of the symbols, which is 1,
/// is the number of the first symbol that isn't local ("Section Header", "Symbol Table").
pub fn symbols_are_global()
    ensures first { (functions : List ListedFunction) → LocalsFirst (symbols_of functions) }
    ensures info { (functions : List ListedFunction) → first_global (symbols_of functions) ≡ 1 }
{}
