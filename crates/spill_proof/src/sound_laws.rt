//! The law of soundness, as the contract of a function with an empty body.

ghost use Rattle.spill_proof.specs.Sound.{SpilledIsSound};

/// A sound function is sound with registers spilled that satisfy the conditions (`MaySpill`), if slots are distinct
/// and no more than allowed.
pub fn spilled_is_sound()
    ensures { SpilledIsSound }
{}
