//! Invariance of outputs under debug items: the contract of an empty function.

ghost use Rattle.theorem_invariance.specs.OutputAlone.{OutputsOfAlikeCode};

/// The outputs of two programs after the same passes have the same `.text` if
/// the functions of both, pairwise, expose the same to other code, and have the same names, slots, stack objects, block
/// numbers and code in order,
/// whatever debug values, DBG_PHIs, debug instruction numbers, origins and debug locations they have.
pub fn outputs_are_of_code_alone()
    ensures { OutputsOfAlikeCode }
{}
