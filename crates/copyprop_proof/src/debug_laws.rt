//! The debug law, as the contract of a function with an empty body.

ghost use Rattle.copyprop_proof.specs.DebugLaws.{CopiesKeepItems};

/// If redundant copies are removed from a function, each debug value, DBG_PHI and number is kept, or substituted or
/// replaced by a DBG_PHI.
pub fn copies_keep_items()
    ensures { CopiesKeepItems }
{}
