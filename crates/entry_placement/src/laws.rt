//! Laws about placed trees, each the contract of a function that does nothing.

ghost use Rattle.std.specs.Prelude.{◌≡◌, ◌<◌, ◌^◌, ℕ, List, All};
ghost use Rattle.dwarf_entry.specs.declared.tree.TreeItem.{TreeItem};
ghost use Rattle.dwarf_entry.specs.declared.abbreviation.Abbreviation.{Abbreviation};
ghost use Rattle.dwarf_entry.specs.Declarations.{abbreviations_of};
ghost use Rattle.dwarf_entry.specs.Entries.{spelling_at};
ghost use Rattle.elf_content.specs.Content.{relocations_from, symbol_address, written, IsWhole};
ghost use Rattle.elf_relocation.specs.Applied.{applied};
ghost use Rattle.entry_placement.specs.declared.content.SectionSymbols.{SectionSymbols};
ghost use Rattle.entry_placement.specs.Moved.{moved_tree, ItemFitsMoved};
ghost use Rattle.entry_placement.specs.Pieces.{symbol_of, unit_pieces};

/// Wherever code and sections lie, the section of a tree after its relocations is the one encoding of the tree with
/// each address moved by where code lies, and each section offset by where its section does. A reference is within the
/// unit, and stays.
pub fn placed_entries_are_moved()
    ensures placed { (s : SectionSymbols) (abbreviations : List Abbreviation) (tree : List TreeItem) (place : ℕ)
        (addresses : List ℕ) → symbol_address addresses s.abbreviations < 2 ^ 32
        → All (ItemFitsMoved (symbol_address addresses s.text) (λ name. symbol_address addresses (symbol_of s name))) tree
        → applied place addresses (relocations_from 0 (unit_pieces s abbreviations tree))
        (written (unit_pieces s abbreviations tree))
        ≡ spelling_at (symbol_address addresses s.abbreviations) abbreviations
        (moved_tree (symbol_address addresses s.text) (λ name. symbol_address addresses (symbol_of s name)) tree) }
    // Moved entries have the same abbreviations.
    ensures abbreviations { (s : SectionSymbols) (tree : List TreeItem) (addresses : List ℕ)
        → abbreviations_of (moved_tree (symbol_address addresses s.text)
        (λ name. symbol_address addresses (symbol_of s name)) tree) ≡ abbreviations_of tree }
    // Each field has the bytes of its kind, so that the relocations can be applied and are apart.
    ensures whole { (s : SectionSymbols) (abbreviations : List Abbreviation) (tree : List TreeItem)
        → All IsWhole (unit_pieces s abbreviations tree) }
{}
