//! Laws of folding: each is the contract of a function with an empty body.

ghost use Rattle.pass_trait.specs.Code.{HasOneResult, SeesCodeAlone};
ghost use Rattle.fold_rule.specs.Rule.{IsFolded};
ghost use Rattle.fold_rule_proof.specs.Strips.{FoldsStripped, EndsStay};

/// Folding is functional.
pub fn folding_has_one_result()
    ensures { HasOneResult IsFolded }
{}

/// Folding doesn't depend on debug items: from functions with the same code it makes functions with the same code.
pub fn folding_sees_code_alone()
    ensures { SeesCodeAlone IsFolded }
{}

/// Folding commutes with stripping debug items.
pub fn folding_strips()
    ensures { FoldsStripped }
{}

/// A bypassed block is deleted.
pub fn ends_stay()
    ensures { EndsStay }
{}
