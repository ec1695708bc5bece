//! Laws of dead code: each is the contract of a function with an empty body.

ghost use Rattle.pass_trait.specs.Code.{HasOneResult, SeesCodeAlone};
ghost use Rattle.dce_rule.specs.Dead.{IsThinnedOut};
ghost use Rattle.dce_rule.specs.CodeLaws.{LiveIsClosed, DeadCodeFollows, SettledFollows, RoundIsStripped};
ghost use Rattle.dce_rule.specs.CodeLaws.{DeadCodeKeepsItems, DeadCodeKeepsSizes};
ghost use Rattle.dce_rule.specs.Rounds.{RoundsEnd, LooseLaws};

/// Complete rounds determine the code, and don't depend on debug items.
pub fn rounds_make_code_alone()
    ensures one { HasOneResult IsThinnedOut }
    ensures same { SeesCodeAlone IsThinnedOut }
{}

/// A round on a function without debug items removes the same code as on the function with them, whatever becomes
/// undef.
pub fn round_is_stripped()
    ensures { RoundIsStripped }
{}

/// The places that are live out of blocks are closed: what a block needs at its start, except x0, is needed at the end
/// of each predecessor.
pub fn live_is_closed()
    ensures { LiveIsClosed }
{}

/// A function without its dead code, in which debug values and DBG_PHIs of wrong places are undef, is sound, and this
/// preserves the weak simulation (the one without the condition on slot stores at blocks' ends).
pub fn dead_code_follows()
    ensures { DeadCodeFollows }
{}

/// If no dead copy has a number, without dead code each debug value, DBG_PHI and number of a function is kept, or is
/// among the losses with its cause: a number of dead code that isn't a copy, or a debug value or DBG_PHI of a wrong
/// place.
pub fn dead_code_keeps_items()
    ensures { DeadCodeKeepsItems }
{}

/// A function without its dead code is no larger.
pub fn dead_code_keeps_sizes()
    ensures { DeadCodeKeepsSizes }
{}

/// Rounds are complete once one removes nothing.
pub fn rounds_end()
    ensures { RoundsEnd }
{}

/// Preserving the weak simulation composes, and once a round removes nothing the full simulation is preserved.
pub fn loose_laws()
    ensures { LooseLaws }
{}

/// Once a round removes nothing, slot stores at blocks' ends are as the full simulation requires.
pub fn settled_follows()
    ensures { SettledFollows }
{}
