//! The laws of the step: each is the contract of a function with an empty body.

ghost use Rattle.scan_debug.specs.Laws.{AllottedIsSound, AllottedKeepsSizes, AllottedKeepsStep};

/// The function stays sound.
pub fn allotted_is_sound()
    ensures { AllottedIsSound }
{}

/// No item and no number is added.
pub fn allotted_keeps_sizes()
    ensures { AllottedKeepsSizes }
{}

/// It is a run of the step, with these losses.
pub fn allotted_keeps_step()
    ensures { AllottedKeepsStep }
{}
