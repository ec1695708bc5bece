//! The law of the shape of folded functions, as the contract of a function with an empty body.

ghost use Rattle.fold_proof.specs.Shapes.{FoldedHasShape};

/// A function folded with kills has the shape of a simulated function, if the function before is simulated with matched
/// block ends.
pub fn folded_has_shape()
    ensures { FoldedHasShape }
{}
