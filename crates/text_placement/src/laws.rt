//! Laws about placed code, each the contract of a function that does nothing.

ghost use Rattle.std.specs.Prelude.{◌≡◌, ◌+◌, ◌<◌, ◌^◌, ◌%◌, ℕ, List, length, All, Some};
ghost use Rattle.rv64_instr.specs.declared.symbol.Half.{Half};
ghost use Rattle.rv64_instr.specs.declared.symbol.LinkedAddress.{LinkedAddress};
ghost use Rattle.rv64_instr.specs.declared.symbol.Symbol.{Symbol};
ghost use Rattle.rv64_instr.specs.Linked.{linked_address};
ghost use Rattle.rv64_instr.specs.LocationEffects.{part_named};
ghost use Rattle.rv64_instr.specs.Row.{Row};
ghost use Rattle.rv64_word.specs.Linked.{linked_word};
ghost use Rattle.sem_machine.specs.Image.{word_at};
ghost use Rattle.elf_object.specs.declared.relocations.Relocation.{Relocation};
ghost use Rattle.elf_object.specs.Standard.{R_RISCV_CALL_PLT};
ghost use Rattle.elf_relocation.specs.declared.kind.RelocationKind.{RelocationKind};
ghost use Rattle.elf_relocation.specs.Applied.{applied, target_of, AreApart, IsApart, IsApplicable};
ghost use Rattle.elf_relocation.specs.Applied.{IsInRange};
ghost use Rattle.elf_relocation.specs.Kinds.{number_of};
ghost use Rattle.rv64_relocation.specs.Code.{relocation_kind};
ghost use Rattle.text_placement.specs.Placed.{text_relocations, AreLines, IsPlacedLine, PlacedLine};
ghost use Rattle.text_placement.specs.Goes.{Goes, word_field, CALL_JUMP, CALL_UPPER, TAIL_JUMP, TAIL_UPPER};

/// Where a linker places code and its symbols, each word that is relocated by the kind of its instruction's half of
/// an address is the word that a machine runs where symbols have these addresses, if the relocation's symbol and
/// addend are those of the half's address there.
pub fn placed_words_are_linked()
    ensures { (base : ℕ) (addresses : List ℕ) (relocations : List Relocation) (text : List ℕ)
        → All (IsApplicable (length text) (length addresses)) relocations → AreApart relocations
        → All (λ r. (symbols : Symbol → ℕ) (row : Row) (half : Half) (y : LinkedAddress) (k : RelocationKind) (w : ℕ)
        → part_named row ≡ Some (half, y) → relocation_kind row ≡ Some k → r.relocation_type ≡ number_of k
        → (target_of addresses r + r.addend) % 2 ^ 64 ≡ linked_address symbols y → word_at text r.offset ≡ Some w
        → word_at (applied base addresses relocations text) r.offset ≡ Some (linked_word symbols row w)) relocations }
{}

/// A word that shares no byte with a relocated field stays as it is.
pub fn other_words_stay()
    ensures { (base : ℕ) (addresses : List ℕ) (relocations : List Relocation) (text : List ℕ) (at : ℕ)
        → All (IsApplicable (length text) (length addresses)) relocations → All (IsApart (word_field at)) relocations
        → word_at (applied base addresses relocations text) at ≡ word_at text at }
{}

/// And the two words of a call by a function's name, and of one in tail position, go to the symbol of their
/// relocation if it is in range: a call with x1 for the way back, one in tail position with x1 as it is.
pub fn placed_sites_go()
    ensures call { (base : ℕ) (addresses : List ℕ) (relocations : List Relocation) (text : List ℕ)
        → All (IsApplicable (length text) (length addresses)) relocations → AreApart relocations
        → base + length text < 2 ^ 64
        → All (λ r. r.relocation_type ≡ R_RISCV_CALL_PLT → r.addend ≡ 0 → IsInRange base addresses r
        → target_of addresses r < 2 ^ 64
        → word_at text r.offset ≡ Some CALL_UPPER → word_at text (r.offset + 4) ≡ Some CALL_JUMP
        → Goes (applied base addresses relocations text) base (base + r.offset) (target_of addresses r) 1 1)
        relocations }
    ensures tail { (base : ℕ) (addresses : List ℕ) (relocations : List Relocation) (text : List ℕ)
        → All (IsApplicable (length text) (length addresses)) relocations → AreApart relocations
        → base + length text < 2 ^ 64
        → All (λ r. r.relocation_type ≡ R_RISCV_CALL_PLT → r.addend ≡ 0 → IsInRange base addresses r
        → target_of addresses r < 2 ^ 64
        → word_at text r.offset ≡ Some TAIL_UPPER → word_at text (r.offset + 4) ≡ Some TAIL_JUMP
        → Goes (applied base addresses relocations text) base (base + r.offset) (target_of addresses r) 6 0)
        relocations }
{}

/// Where a linker places code and its symbols, each line of code is what a machine runs in the environment of the
/// placement: a word is the linked one, and the two words for a function by its name go to it, if it is in range.
pub fn placed_lines_run()
    ensures { (base : ℕ) (addresses text : List ℕ) (lines : List PlacedLine) → AreLines base addresses text lines
        → All (IsPlacedLine base addresses text (applied base addresses (text_relocations lines) text)) lines }
{}
