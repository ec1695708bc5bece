//! Laws of the rule: each is the contract of a function with an empty body.

ghost use Rattle.scan_rule.specs.Laws.{AllotmentIsOne, AllotmentSeesCodeAlone, AllottedIsStripped};

/// Of one function's code the rule makes one.
pub fn allotment_is_one()
    ensures { AllotmentIsOne }
{}

/// The rule doesn't depend on positions.
pub fn allotment_sees_code_alone()
    ensures { AllotmentSeesCodeAlone }
{}

/// Stripping debug items commutes with the rule.
pub fn allotted_is_stripped()
    ensures { AllottedIsStripped }
{}
