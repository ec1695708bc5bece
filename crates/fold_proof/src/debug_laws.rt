//! The debug law of folding with kills, as the contract of a function with an empty body.

ghost use Rattle.fold_proof.specs.Keeps.{FoldedKeepsItems};

/// Folding with kills keeps each debug item, or reports its loss with its cause.
pub fn folded_keeps_items()
    ensures { FoldedKeepsItems }
{}
