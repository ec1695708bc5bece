//! Laws of rounds: each is the contract of a function with an empty body.

ghost use Rattle.dce_round.specs.Laws.{RoundFollows, RoundCode};

/// The function after a round is sound, and the round preserves the weak simulation.
pub fn round_follows()
    ensures { RoundFollows }
{}

/// A round removes exactly the dead code, whatever debug items the function has, and there is less code after it.
pub fn round_code()
    ensures { RoundCode }
{}
