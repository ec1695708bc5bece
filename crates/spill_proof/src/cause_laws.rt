//! Laws of causes: each is the contract of a function with an empty body.

ghost use Rattle.spill_proof.specs.Causes.{LossesHaveCauses, NewSlotsAreNew, LeftHaveFirstCauses};

/// Each loss of an item is of a debug value or DBG_PHI of a scratch register, and some register is spilled.
pub fn losses_have_causes()
    ensures { LossesHaveCauses }
{}

/// Each spilled register has a slot that the function has now, and hadn't before.
pub fn new_slots_are_new()
    ensures { NewSlotsAreNew }
{}

/// Each register of an ascending reserve that code names and that isn't spilled has the first reason that applies.
pub fn left_have_first_causes()
    ensures { LeftHaveFirstCauses }
{}
