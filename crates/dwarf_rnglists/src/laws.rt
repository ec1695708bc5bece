//! Laws about the content of a section's bytes, each the contract of a function that does nothing.

ghost use Rattle.std.specs.Prelude.{◌≡◌, ◌↔◌, ℕ, List, Some, slice_get};
ghost use Rattle.dwarf_rnglists.specs.declared.range.AddressRange.{AddressRange};
ghost use Rattle.dwarf_rnglists.specs.Grammar.{IsSection, IsInRange};
ghost use Rattle.dwarf_rnglists.specs.Ranges.{Cover};

/// The content of a section is unique.
pub fn one_reading()
    ensures { (bytes : List ℕ) (a b : List (List AddressRange)) → IsSection bytes a → IsSection bytes b → a ≡ b }
{}

/// An address is in a range of a list of a section exactly if the list's ranges cover it.
pub fn ranges_are_told()
    ensures { (bytes : List ℕ) (lists : List (List AddressRange)) → IsSection bytes lists → (k address : ℕ)
        (ranges : List AddressRange) → slice_get lists k ≡ Some ranges → IsInRange bytes k address ↔ Cover ranges address }
{}
