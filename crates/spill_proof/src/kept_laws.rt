//! The laws of spilling as a step: each is the contract of a function with an empty body.

ghost use Rattle.spill_proof.specs.Kept.{SpilledPreservesSimulation, SpilledKeepsSteps, SpilledKeepsSizes};

/// Spilling preserves the simulation, and keeps matched block ends matched.
pub fn spilled_keeps_following()
    ensures { SpilledPreservesSimulation }
{}

/// Spilling is a run of its one step, with all its losses.
pub fn spilled_keeps_steps()
    ensures { SpilledKeepsSteps }
{}

/// Spilling keeps the size bounds of its factor and count.
pub fn spilled_keeps_sizes()
    ensures { SpilledKeepsSizes }
{}
