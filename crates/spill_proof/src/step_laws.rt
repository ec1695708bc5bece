//! The law of code, as the contract of a function with an empty body.

ghost use Rattle.spill_proof.specs.StepLaws.{SpilledCodeIsMade};

/// The code after spilling is related to the code before it by the code rule, without debug values, DBG_PHIs and
/// numbers.
pub fn spilled_code_is_made()
    ensures { SpilledCodeIsMade }
{}
