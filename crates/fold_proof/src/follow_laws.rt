//! Laws of folding with kills: each is the contract of a function with an empty body.

ghost use Rattle.fold_proof.specs.Follows.{FoldedFollows, KillsStrip};

/// Folding with kills preserves the simulation, if block ends are matched.
pub fn folded_follows()
    ensures { FoldedFollows }
{}

/// Kills are debug items: folding with kills and then stripping debug items is the same as stripping and then folding.
pub fn kills_strip()
    ensures { KillsStrip }
{}
