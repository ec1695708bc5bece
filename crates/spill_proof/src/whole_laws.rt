//! Laws of the rule's choice: each is the contract of a function with an empty body.

ghost use Rattle.spill_proof.specs.WholeLaws.{AskedElsewhere, ChoiceIsBare, SlotsFit};

/// The choice is the same with and without debug items.
pub fn choice_is_bare()
    ensures { ChoiceIsBare }
{}

/// After the rewriting no debug value names a spilled or scratch register, and no DBG_PHI a scratch register.
pub fn asked_elsewhere()
    ensures { AskedElsewhere }
{}

/// With the new slots, slots have distinct numbers, and there are no more slots and stack objects than a function may
/// have.
pub fn slots_fit()
    ensures { SlotsFit }
{}
