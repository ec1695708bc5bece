//! The laws of spilling as a whole: each is the contract of a function with an empty body.

ghost use Rattle.spill_proof.specs.JoinedLaws.{JoinedFollows, JoinedIsSound};

/// Spilling preserves the simulation, and keeps matched block ends matched.
pub fn joined_follows()
    ensures { JoinedFollows }
{}

/// A sound function is sound after spilling.
pub fn joined_is_sound()
    ensures { JoinedIsSound }
{}
