//! The law of rounds, as the contract of a function with an empty body.

ghost use Rattle.dce_pass.specs.RoundsLaws.{RoundsKeep};

/// After complete rounds the function is sound and within the size bounds, and the rounds preserve the simulation.
pub fn rounds_keep()
    ensures { RoundsKeep }
{}
