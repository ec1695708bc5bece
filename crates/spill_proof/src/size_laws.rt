//! The law of sizes, as the contract of a function with an empty body.

ghost use Rattle.spill_proof.specs.Sizes.{WholeKeepsSizes};

/// Spilling is within the size bounds of a pass with factor 4 and count 1, if fresh numbers begin right above the
/// greatest one.
pub fn whole_keeps_sizes()
    ensures { WholeKeepsSizes }
{}
