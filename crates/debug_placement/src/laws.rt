//! Laws about placed sections, each the contract of a function that does nothing.

ghost use Rattle.std.specs.Prelude.{◌≡◌, ◌<◌, ◌^◌, ℕ, List, map, All};
ghost use Rattle.dwarf_frame.specs.declared.table.FrameDescription.{FrameDescription};
ghost use Rattle.dwarf_frame.specs.Spelling.{spelling as frame_spelling};
ghost use Rattle.dwarf_info.specs.declared.inlined.InlinedUnit.{InlinedUnit};
ghost use Rattle.dwarf_info.specs.declared.unit.Unit.{Unit as CompilationUnit};
ghost use Rattle.dwarf_line.specs.declared.table.LineTable.{LineTable};
ghost use Rattle.dwarf_line.specs.Spelling.{spelling as line_spelling};
ghost use Rattle.dwarf_line.specs.Table.{IsSequence};
ghost use Rattle.elf_content.specs.Content.{placed, relocations_from, symbol_address, written};
ghost use Rattle.elf_relocation.specs.Applied.{applied};
ghost use Rattle.debug_placement.specs.declared.sections.UnitSections.{UnitSections};
ghost use Rattle.debug_placement.specs.Entries.{info_pieces, inlined_pieces, inlined_spelling_in, spelling_in};
ghost use Rattle.debug_placement.specs.Entries.{unit_places, HasRangesBelow, UnitFits};
ghost use Rattle.debug_placement.specs.Frames;
ghost use Rattle.debug_placement.specs.Frames.{frame_pieces, moved_description, spelling_by};
ghost use Rattle.debug_placement.specs.Lines;
ghost use Rattle.debug_placement.specs.Lines.{line_pieces, moved_table};

/// Wherever code lies, the line number section after its relocations is the one encoding of its table with each
/// address moved by where code lies.
pub fn placed_lines_are_moved()
    ensures { (t : LineTable) (text place : ℕ) (addresses : List ℕ) → All IsSequence t.sequences
        → All (Lines.EndsBelow (symbol_address addresses text)) t.sequences
        → applied place addresses (relocations_from 0 (line_pieces text t)) (written (line_pieces text t))
        ≡ line_spelling (moved_table (symbol_address addresses text) t) }
{}

/// Wherever code and the section lie, the section of call frame information after its relocations is that of the same
/// functions with each address moved by where code lies, and each offset of their CIE by where the section does.
pub fn placed_frames_are_moved()
    ensures placed { (undefined : List ℕ) (functions : List FrameDescription) (frame text place : ℕ)
        (addresses : List ℕ)
        → symbol_address addresses frame < 2 ^ 32 → All (Frames.EndsBelow (symbol_address addresses text)) functions
        → applied place addresses (relocations_from 0 (frame_pieces frame text undefined functions))
        (written (frame_pieces frame text undefined functions))
        ≡ spelling_by (symbol_address addresses frame) undefined
        (map (moved_description (symbol_address addresses text)) functions) }
    // Where the section lies at 0, that is the one encoding of the moved functions.
    ensures alone { (undefined : List ℕ) (functions : List FrameDescription)
        → spelling_by 0 undefined functions ≡ frame_spelling undefined functions }
{}

/// Wherever code and sections lie, the section of debugging information entries after its relocations is that of the
/// same entries with each address moved by where code lies, and each offset by where its section does.
pub fn placed_entries_are_moved()
    ensures plain { (s : UnitSections) (u : CompilationUnit) (place : ℕ) (addresses : List ℕ)
        → UnitFits (unit_places addresses s) u.functions
        → applied place addresses (relocations_from 0 (info_pieces s u)) (written (info_pieces s u))
        ≡ spelling_in (unit_places addresses s) u }
    ensures inlined { (s : UnitSections) (u : InlinedUnit) (place : ℕ) (addresses : List ℕ)
        → UnitFits (unit_places addresses s) (map (λ f. f.function) u.functions)
        → HasRangesBelow (unit_places addresses s)
        → applied place addresses (relocations_from 0 (inlined_pieces s u)) (written (inlined_pieces s u))
        ≡ inlined_spelling_in (unit_places addresses s) u }
{}
