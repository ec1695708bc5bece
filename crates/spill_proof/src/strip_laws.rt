//! Laws of code without its debug items: each is the contract of a function with an empty body.

ghost use Rattle.spill_proof.specs.Stripped.{AskedIsStripped, SpilledIsStripped};

/// Rewriting debug values changes no code.
pub fn asked_is_stripped()
    ensures { AskedIsStripped }
{}

/// Spilling and then stripping debug items is the same as stripping and then spilling.
pub fn spilled_is_stripped()
    ensures { SpilledIsStripped }
{}
