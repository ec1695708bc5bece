//! Laws about the content of sections, each the contract of a function that does nothing.

ghost use Rattle.std.specs.Prelude.{◌≡◌, ℕ, List, length, All};
ghost use Rattle.elf_relocation.specs.Applied.{applied, AreApart, IsApplicable};
ghost use Rattle.elf_content.specs.declared.piece.Piece.{Piece};
ghost use Rattle.elf_content.specs.Content.{placed, relocations_from, written, HasSymbol, IsWhole};

/// Wherever a section lies, and whatever the addresses of symbols are, its content after its relocations is that of
/// its pieces with their fields filled.
pub fn content_is_placed()
    ensures placed { (base : ℕ) (addresses : List ℕ) (pieces : List Piece) → All IsWhole pieces
        → applied base addresses (relocations_from 0 pieces) (written pieces) ≡ placed base addresses pieces }
    // The relocations can be applied, and no two share a byte.
    ensures applicable { (symbols : ℕ) (pieces : List Piece) → All IsWhole pieces → All (HasSymbol symbols) pieces
        → All (IsApplicable (length (written pieces)) symbols) (relocations_from 0 pieces) }
    ensures apart { (pieces : List Piece) → All IsWhole pieces → AreApart (relocations_from 0 pieces) }
{}
