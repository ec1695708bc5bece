//! Laws of the steps of folded items: each is the contract of a function with an empty body.

ghost use Rattle.fold_rule_proof.specs.Alike.{FoldedItemsDoAlike};

/// Retargeted branches and jumps, inverted branches and new jumps have the effects of the old ones, with the same core
/// states.
pub fn folded_items_do_alike()
    ensures { FoldedItemsDoAlike }
{}
