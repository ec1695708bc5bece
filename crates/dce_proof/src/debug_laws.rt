//! Laws of debug items: each is the contract of a function with an empty body.

ghost use Rattle.dce_proof.specs.DebugLaws.{RoundKeepsItems, IdleKeepsItems};

/// In a round each debug value, DBG_PHI and number is kept, or substituted or replaced by a DBG_PHI, or is lost with
/// its cause.
pub fn round_keeps_items()
    ensures { RoundKeepsItems }
{}

/// If nothing is dead, the unchanged function meets the debug rule of a round, with no losses.
pub fn idle_round_keeps_items()
    ensures { IdleKeepsItems }
{}
