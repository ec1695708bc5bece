//! Laws about the trees of units, each the contract of a function that does nothing.

ghost use Rattle.std.specs.Prelude.{◌≡◌, length, All};
ghost use Rattle.dwarf_info.specs.declared.unit.Unit.{Unit as CompilationUnit};
ghost use Rattle.dwarf_info.specs.declared.inlined.InlinedUnit.{InlinedUnit};
ghost use Rattle.dwarf_info.specs.Entries;
ghost use Rattle.dwarf_info.specs.Entries.{HasTypes};
ghost use Rattle.dwarf_info.specs.Inlined.{inlined_spelling, IsInlinedFunction};
ghost use Rattle.dwarf_info.specs.Kinds.{abbreviations, inlined_abbreviations};
ghost use Rattle.dwarf_entry.specs.Declarations.{abbreviation_section};
ghost use Rattle.dwarf_entry.specs.Entries.{spelling};
ghost use Rattle.unit_entries.specs.Kinds.{plain_abbreviations, all_abbreviations};
ghost use Rattle.unit_entries.specs.Plain.{unit_tree};
ghost use Rattle.unit_entries.specs.Inlined.{inlined_unit_tree};

/// The sections of a unit are those of its tree.
pub fn sections_are_of_the_tree()
    ensures abbreviations { abbreviation_section plain_abbreviations ≡ abbreviations }
    ensures entries { (u : CompilationUnit) → All (HasTypes (length u.types)) u.functions
        → spelling plain_abbreviations (unit_tree u) ≡ Entries.spelling u }
{}

/// The sections of a unit with inlined functions are those of its tree.
pub fn inlined_sections_are_of_the_tree()
    ensures abbreviations { abbreviation_section all_abbreviations ≡ inlined_abbreviations }
    ensures entries { (u : InlinedUnit)
        → All (IsInlinedFunction (length u.types) (length u.abstracts)) u.functions
        → spelling all_abbreviations (inlined_unit_tree u) ≡ inlined_spelling u }
{}
