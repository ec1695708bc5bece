//! The law of a round's sizes, as the contract of a function with an empty body.

ghost use Rattle.dce_proof.specs.SizeLaws.{RoundSizes};

/// After a round there are no more items, calls or slots; and the greatest number grows by at most the number of
/// removed items.
pub fn round_sizes()
    ensures { RoundSizes }
{}
