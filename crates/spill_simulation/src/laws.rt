//! The law of spilling, as the contract of a function with an empty body.

ghost use Rattle.spill_simulation.specs.Follows.{SpilledFollows};

/// In a sound function, spilling registers that satisfy the conditions (`MaySpill`) preserves the simulation, and
/// keeps matched block ends matched.
pub fn spilled_follows()
    ensures { SpilledFollows }
{}
