//! Laws about objects that a linker places, each the contract of a function that does nothing.

ghost use Rattle.std.specs.Prelude.{ℕ, List};
ghost use Rattle.compile_theorem.specs.OutputProperties.{AreLaidOut};
ghost use Rattle.compile_theorem.specs.Source.{SourceFunction};
ghost use Rattle.listing_text.specs.declared.output.Output.{Output};
ghost use Rattle.linkable_command.specs.declared.tables.DebugTables.{DebugTables};
ghost use Rattle.linkable_command.specs.Linkable.{AreWritable};
ghost use Rattle.linkable_placement.specs.Placement.{Fits, IsPlaced, Placement};

/// Wherever a linker places the object of an output, its code runs in the environment of the placement, and its debug
/// sections are those of the same entries, rows and functions, moved there.
pub fn objects_are_placed()
    ensures { (names : ℕ → List ℕ) (sources : List SourceFunction) (o : Output) (lists : List ℕ) (t : DebugTables)
        → AreLaidOut names sources o → AreWritable t → (p : Placement) → Fits p o lists t → IsPlaced p o lists t }
{}
