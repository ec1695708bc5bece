//! Laws about the content of a section's bytes, each the contract of a function that does nothing.

ghost use Rattle.std.specs.Prelude.{◌≡◌, ◌<◌, ◌≤◌, ℕ, List, Option, Contains};
ghost use Rattle.rv64_instr.specs.declared.place.Place.{Place};
ghost use Rattle.dwarf_loclists.specs.declared.range.Part.{Part};
ghost use Rattle.dwarf_loclists.specs.declared.range.Location.{Location};
ghost use Rattle.dwarf_loclists.specs.declared.range.Range.{Range};
ghost use Rattle.dwarf_loclists.specs.Ranges.{Ascend, location_in};
ghost use Rattle.dwarf_loclists.specs.Fault.{FaultAt};
ghost use Rattle.dwarf_loclists.specs.Grammar.{IsSection, LocationAt, PlaceAt, PieceAt};

/// The content of a section is unique, and so is the location of a list at an address.
pub fn one_reading()
    ensures lists { (bytes : List ℕ) (a b : List (List Range)) → IsSection bytes a → IsSection bytes b → a ≡ b }
    ensures location { (bytes : List ℕ) (k address : ℕ) (p q : Option Location) → LocationAt bytes k address p
        → LocationAt bytes k address q → p ≡ q }
    ensures place { (bytes : List ℕ) (k address : ℕ) (p q : Option Place) → PlaceAt bytes k address p
        → PlaceAt bytes k address q → p ≡ q }
    ensures piece { (bytes : List ℕ) (k address n : ℕ) (p q : Option Part) → PieceAt bytes k address n p
        → PieceAt bytes k address n q → p ≡ q }
{}

/// The location at an address is that of the range that contains it, and None if and only if no range does.
pub fn one_location()
    ensures found { (ranges : List Range) (r : Range) (address : ℕ) → Ascend ranges → Contains ranges r
        → r.lo ≤ address → address < r.hi → location_in ranges address ≡ Some r.location }
    ensures only { (ranges : List Range) (address : ℕ) (p : Location) → location_in ranges address ≡ Some p
        → (r : Range) × Contains ranges r × (r.lo ≤ address) × (address < r.hi) × (p ≡ r.location) }
{}

/// Bytes have at most one first fault, and a section has none.
pub fn one_fault()
    ensures only { (bytes : List ℕ) (a b : ℕ) → FaultAt bytes a → FaultAt bytes b → a ≡ b }
    ensures outside { (bytes : List ℕ) (at : ℕ) (lists : List (List Range)) → FaultAt bytes at → IsSection bytes lists
        → ⊥ }
{}
