//! The law of sizes, as the contract of a function with an empty body.

ghost use Rattle.fold_proof.specs.Sizes.{FoldedKeepsSizes};

/// Folding with kills is within the size bounds of a pass with factor 1 and count 1.
pub fn folded_keeps_sizes()
    ensures { FoldedKeepsSizes }
{}
