//! Laws of the rule's choice: each is the contract of a function with an empty body.

ghost use Rattle.spill_rule.specs.Chosen.{ChosenMaySpill};
ghost use Rattle.spill_rule.specs.Follows.{RuleFollows};

/// In a sound function whose debug items name no affected register, the registers that the rule chooses, if any,
/// satisfy the conditions of spilling.
pub fn chosen_may_spill()
    ensures { ChosenMaySpill }
{}

/// In such a function spilling the registers that the rule chooses preserves the simulation, and keeps matched block
/// ends matched.
pub fn rule_follows()
    ensures { RuleFollows }
{}
