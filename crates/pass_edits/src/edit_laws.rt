//! The law of edits, as the contract of a function with an empty body.

ghost use Rattle.pass_edits.specs.Edits.{EditsKeepSound};

/// If copies are removed, DBG_PHIs are added before copies, and code gets other numbers, without duplicates, a function
/// stays sound.
pub fn edited_function_is_sound()
    ensures { EditsKeepSound }
{}
