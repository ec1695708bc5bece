//! The law of folding with kills, as the contract of a function with an empty body.

ghost use Rattle.fold_rule_proof.specs.KilledSound.{KilledIsSound};

/// A sound function is sound after folding with kills.
pub fn killed_is_sound()
    ensures { KilledIsSound }
{}
