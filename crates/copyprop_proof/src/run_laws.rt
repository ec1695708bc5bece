//! The law of replaced uses, as the contract of a function with an empty body.

ghost use Rattle.copyprop_proof.specs.Renamed.{RenamingFollows};

/// Replacing explicit uses by their roots keeps the function sound, and preserves the weak simulation (the one without
/// the condition on slot stores at blocks' ends).
pub fn renaming_follows()
    ensures { RenamingFollows }
{}
