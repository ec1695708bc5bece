//! The law of runs, as the contract of a function with an empty body.

ghost use Rattle.fold_proof.specs.Runs.{FoldedRunsAlong};

/// A source that simulates a function with observation points at block ends simulates the runs of the function folded
/// with kills.
pub fn folded_runs_along()
    ensures { FoldedRunsAlong }
{}
