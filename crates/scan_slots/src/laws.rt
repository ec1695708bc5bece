//! Laws of the step: each is the contract of a function with an empty body.

ghost use Rattle.scan_slots.specs.Kept.{SettledKeepsStep};
ghost use Rattle.scan_slots.specs.Laws.{SettlingIsOne, SettlingSeesCodeAlone, SettledFollows, SettledIsSound, SettledKeepsSizes};

/// Of one function's code the rule makes one.
pub fn settling_is_one()
    ensures { SettlingIsOne }
{}

/// Putting the registers into slots preserves the simulation, and keeps matched block ends matched.
pub fn settled_follows()
    ensures { SettledFollows }
{}

/// The function stays sound.
pub fn settled_is_sound()
    ensures { SettledIsSound }
{}

/// It is a run of the step, with these losses.
pub fn settled_keeps_step()
    ensures { SettledKeepsStep }
{}

/// The rule doesn't depend on positions.
pub fn settling_sees_code_alone()
    ensures { SettlingSeesCodeAlone }
{}

/// The step keeps the size bounds with factor 4 and count 1.
pub fn settled_keeps_sizes()
    ensures { SettledKeepsSizes }
{}
