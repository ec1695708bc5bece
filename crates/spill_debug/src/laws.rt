//! The law of rewritten debug values, as the contract of a function with an empty body.

ghost use Rattle.spill_debug.specs.Laws.{AskedIsSound};

/// A sound function stays sound if debug values of spilled registers refer to new DBG_PHIs with fresh numbers, and
/// those of scratch registers become undef.
pub fn asked_is_sound()
    ensures { AskedIsSound }
{}
