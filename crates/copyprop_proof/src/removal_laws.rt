//! The law of functions without redundant copies, as the contract of a function with an empty body.

ghost use Rattle.copyprop_proof.specs.RemovalLaws.{CopiesFollow};

/// A function without its redundant copies is sound, and this preserves the simulation.
pub fn copies_follow()
    ensures { CopiesFollow }
{}
