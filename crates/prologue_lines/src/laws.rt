//! Laws about the section, each the contract of a function that does nothing.

ghost use Rattle.std.specs.Prelude.{◌≡◌, ℕ, List, All};
ghost use Rattle.dwarf_line.specs.declared.table.LineTable.{LineTable};
ghost use Rattle.dwarf_line.specs.Table.{IsSequence};
ghost use Rattle.elf_content.specs.Content.{relocations_from, symbol_address, written};
ghost use Rattle.elf_relocation.specs.Applied.{applied};
ghost use Rattle.debug_placement.specs.Lines.{moved_table, EndsBelow};
ghost use Rattle.prologue_lines.specs.Pieces.{line_pieces};
ghost use Rattle.prologue_lines.specs.Spelling.{spelling};

/// Wherever code lies, the section after its relocations is the one encoding of its table with each address moved by
/// where code lies.
pub fn placed_lines_are_moved()
    ensures { (t : LineTable) (text place : ℕ) (addresses : List ℕ) → All IsSequence t.sequences
        → All (EndsBelow (symbol_address addresses text)) t.sequences
        → applied place addresses (relocations_from 0 (line_pieces text t)) (written (line_pieces text t))
        ≡ spelling (moved_table (symbol_address addresses text) t) }
{}
