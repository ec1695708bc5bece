//! The law of rewritten debug values, as the contract of a function with an empty body.

ghost use Rattle.spill_proof.specs.Follows.{AskedFollows};

/// The simulation is preserved, and matched block ends stay matched, if debug values of spilled registers refer to new
/// DBG_PHIs with fresh numbers, and those of scratch registers become undef.
pub fn asked_follows()
    ensures { AskedFollows }
{}
