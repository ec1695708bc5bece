//! The law of the simulation: the contract of a function with an empty body.

ghost use Rattle.scan_simulation.specs.Follows.{AllottedFollows};

/// Replacing registers by a coloring preserves the simulation, and keeps matched block ends matched.
pub fn allotted_follows()
    ensures { AllottedFollows }
{}
