//! The law of copies that lose their numbers, as the contract of a function with an empty body.

ghost use Rattle.dce_salvage_proof.specs.SalvageLaws.{NumbersGoOff};

/// Copies lose their numbers, whichever items count as dead: the function stays sound and has the same code, and this
/// preserves the weak simulation.
pub fn numbers_are_salvaged()
    ensures { NumbersGoOff }
{}
