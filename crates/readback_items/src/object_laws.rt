//! The law on instructions that are read again.

ghost use Rattle.readback_items.specs.Again.{CodeIsJudgedAgain};

/// The printed line of an instruction that was read is judged as the same instruction again, whichever stack entries
/// are stack objects.
pub fn code_is_judged_again()
    ensures { CodeIsJudgedAgain }
{}
