//! The law of items, as the contract of a function with an empty body.

ghost use Rattle.spill_proof.specs.Become.{ItemsBecome};

/// Each item becomes what the step's debug rule allows.
pub fn items_become()
    ensures { ItemsBecome }
{}
