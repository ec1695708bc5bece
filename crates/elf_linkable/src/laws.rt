//! Laws about objects that a linker places, each the contract of a function that does nothing.

ghost use Rattle.std.specs.Prelude.{◌≡◌, ℕ, ◌-◌, suc, List, slice_get, Some};
ghost use Rattle.elf_object.specs.declared.symbols.Symbol.{Symbol};
ghost use Rattle.elf_linkable.specs.declared.section.LinkableSection.{LinkableSection};
ghost use Rattle.elf_linkable.specs.Linkable.{name_section, object_of, symbol_section, table_index};
ghost use Rattle.elf_linkable.specs.Linkable.{IsLinkableFile};

/// A file has one list of sections with their relocations, and one of symbols.
pub fn one_file()
    ensures { (f g : ℕ) (a b : List LinkableSection) (x y : List Symbol) (bytes : List ℕ) → IsLinkableFile f a x bytes
        → IsLinkableFile g b y bytes → (f ≡ g) × (a ≡ b) × (x ≡ y) }
{}

/// The sections that the links name are the symbol table and its names. Sections count from 1.
pub fn links_are_right()
    ensures table { (flags : ℕ) (sections : List LinkableSection) (symbols : List Symbol)
        → slice_get (object_of flags sections symbols).sections (table_index sections - 1)
        ≡ Some (symbol_section (suc (table_index sections)) symbols) }
    ensures names { (flags : ℕ) (sections : List LinkableSection) (symbols : List Symbol)
        → slice_get (object_of flags sections symbols).sections (table_index sections) ≡ Some (name_section symbols) }
{}
