//! Laws about objects and their bytes, each the contract of a function that does nothing.

ghost use Rattle.std.specs.Prelude.{◌≡◌, ℕ, ◌+◌, List, length, slice_get, Some};
ghost use Rattle.std.specs.Int.{w16};
ghost use Rattle.elf_object.specs.declared.object.Section.{Section};
ghost use Rattle.elf_object.specs.declared.object.Object.{Object};
ghost use Rattle.elf_object.specs.declared.relocations.Relocation.{Relocation};
ghost use Rattle.elf_object.specs.declared.symbols.Symbol.{Symbol};
ghost use Rattle.elf_object.specs.Grammar.{IsObject};
ghost use Rattle.elf_object.specs.FirstFault.{FirstFault};
ghost use Rattle.elf_object.specs.Relocations.{AreRelocations};
ghost use Rattle.elf_object.specs.Symbols.{AreSymbols};
ghost use Rattle.elf_object.specs.Sections.{number_at, IsSectionAt};

/// Bytes are an object of at most one list of sections.
pub fn one_reading()
    ensures { (bytes : List ℕ) (a b : Object) → IsObject a bytes → IsObject b bytes → a ≡ b }
{}

/// The bytes of an object have no wrong field, and of other bytes at most one field is the first that is wrong.
pub fn one_verdict()
    ensures right { (bytes : List ℕ) (o : Object) (at : ℕ) → IsObject o bytes → FirstFault bytes at → ⊥ }
    ensures first { (bytes : List ℕ) (a b : ℕ) → FirstFault bytes a → FirstFault bytes b → a ≡ b }
{}

/// Bytes are the relocations of at most one list, and those of two tables the symbols of at most one.
pub fn one_table()
    ensures relocations { (table : List ℕ) (a b : List Relocation) → AreRelocations a table → AreRelocations b table
        → a ≡ b }
    ensures symbols { (table names : List ℕ) (a b : List Symbol) → AreSymbols a table names → AreSymbols b table names
        → a ≡ b }
{}

/// By the rules of the gABI for the section header table, each section of an object is in its file, at its index, with
/// its name and its bytes, and the ELF header counts them.
pub fn sections_are_found()
    ensures sections { (bytes : List ℕ) (o : Object) (k : ℕ) (s : Section) → IsObject o bytes
        → slice_get o.sections k ≡ Some s → IsSectionAt bytes (k + 1) s }
    // The null section and that of the names are counted too (e_shnum).
    ensures count { (bytes : List ℕ) (o : Object) → IsObject o bytes
        → number_at w16 60 bytes ≡ length o.sections + 2 }
{}
