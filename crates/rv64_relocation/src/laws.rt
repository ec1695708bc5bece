//! Laws about relocated words, each the contract of a function that does nothing.

ghost use Rattle.std.specs.Prelude.{◌≡◌, ℕ, List, Some};
ghost use Rattle.std.specs.Int.{w32, from_le_bytes};
ghost use Rattle.rv64_instr.specs.declared.symbol.Half.{Half};
ghost use Rattle.rv64_instr.specs.declared.symbol.LinkedAddress.{LinkedAddress};
ghost use Rattle.rv64_instr.specs.declared.symbol.Symbol.{Symbol};
ghost use Rattle.rv64_instr.specs.Arithmetic.{word};
ghost use Rattle.rv64_instr.specs.Linked.{linked_address};
ghost use Rattle.rv64_instr.specs.LocationEffects.{part_named};
ghost use Rattle.rv64_instr.specs.Row.{Row};
ghost use Rattle.rv64_word.specs.Linked.{linked_word};
ghost use Rattle.elf_object.specs.Sections.{number_at};
ghost use Rattle.elf_relocation.specs.declared.kind.RelocationKind.{RelocationKind};
ghost use Rattle.elf_relocation.specs.Fields.{filled, value_of};
ghost use Rattle.rv64_relocation.specs.Code.{relocation_kind};

/// The bytes of code that has a half of an address, relocated against the address's symbol with the address's addend,
/// are the word that a machine runs where symbols have these addresses, wherever they lie.
pub fn relocated_words_are_linked()
    ensures linked { (symbols : Symbol → ℕ) (row : Row) (half : Half) (y : LinkedAddress) (k : RelocationKind)
        (v : ℕ) (before : List ℕ)
        → part_named row ≡ Some (half, y) → relocation_kind row ≡ Some k → v ≡ linked_address symbols y
        → from_le_bytes w32 (filled k v before) ≡ linked_word symbols row (number_at w32 0 before) }
    // That value is the relocation's.
    ensures value { (symbols : Symbol → ℕ) (row : Row) (half : Half) (y : LinkedAddress) (k : RelocationKind)
        (place : ℕ)
        → part_named row ≡ Some (half, y) → relocation_kind row ≡ Some k
        → value_of k (symbols y.symbol) (word y.addend) place ≡ linked_address symbols y }
{}
