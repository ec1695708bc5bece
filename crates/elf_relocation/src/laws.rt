//! Laws about applied relocations, each the contract of a function that does nothing.

ghost use Rattle.std.specs.Prelude.{◌≡◌, ℕ, List, length, slice_index, All, Some};
ghost use Rattle.elf_object.specs.declared.relocations.Relocation.{Relocation};
ghost use Rattle.elf_relocation.specs.declared.kind.RelocationKind.{RelocationKind};
ghost use Rattle.elf_relocation.specs.Applied.{applied, field_of, one_applied};
ghost use Rattle.elf_relocation.specs.Applied.{AreApart, IsApart, IsApplicable, IsOutside};
ghost use Rattle.elf_relocation.specs.Kinds.{kind_of, number_of};

/// Each kind is the one of its number.
pub fn one_kind()
    ensures kind { (k : RelocationKind) → kind_of (number_of k) ≡ Some k }
    ensures number { (n : ℕ) (k : RelocationKind) → kind_of n ≡ Some k → n ≡ number_of k }
{}

/// Relocations change no byte outside of their fields. Where no two fields share a byte, each has what its relocation
/// alone writes.
pub fn fields_are_filled()
    ensures size { (base : ℕ) (addresses : List ℕ) (relocations : List Relocation) (bytes : List ℕ)
        → All (IsApplicable (length bytes) (length addresses)) relocations
        → length (applied base addresses relocations bytes) ≡ length bytes }
    ensures outside { (base : ℕ) (addresses : List ℕ) (relocations : List Relocation) (bytes : List ℕ) (k : ℕ)
        → All (IsApplicable (length bytes) (length addresses)) relocations → All (IsOutside k) relocations
        → slice_index (applied base addresses relocations bytes) k ≡ slice_index bytes k }
    ensures beside { (base : ℕ) (addresses : List ℕ) (relocations : List Relocation) (bytes : List ℕ) (q : Relocation)
        → All (IsApplicable (length bytes) (length addresses)) relocations → All (IsApart q) relocations
        → field_of q (applied base addresses relocations bytes) ≡ field_of q bytes }
    ensures field { (base : ℕ) (addresses : List ℕ) (relocations : List Relocation) (bytes : List ℕ)
        → All (IsApplicable (length bytes) (length addresses)) relocations → AreApart relocations
        → All (λ r. field_of r (applied base addresses relocations bytes)
        ≡ field_of r (one_applied base addresses r bytes))
        relocations }
{}
