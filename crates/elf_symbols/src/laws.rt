//! A law about tables, the contract of a function that does nothing.

ghost use Rattle.std.specs.Prelude.{◌≡◌, ℕ, List, None};
ghost use Rattle.elf_object.specs.declared.relocations.Relocation.{Relocation};
ghost use Rattle.elf_object.specs.declared.symbols.Symbol.{Symbol};
ghost use Rattle.elf_object.specs.Relocations.{AreRelocations};
ghost use Rattle.elf_object.specs.Symbols.{AreSymbols};
ghost use Rattle.elf_symbols.specs.FirstFault.{first_fault, relocations_fault};

/// The bytes of symbols, and those of relocations, have no wrong field.
pub fn none_is_wrong()
    ensures symbols { (table names : List ℕ) (ss : List Symbol) → AreSymbols ss table names
        → first_fault table names ≡ None }
    ensures relocations { (table : List ℕ) (rs : List Relocation) → AreRelocations rs table
        → relocations_fault table ≡ None }
{}
