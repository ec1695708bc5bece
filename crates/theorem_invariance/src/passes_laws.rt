//! Theorems on passes and `.text`. Each is the contract of an empty function.

ghost use Rattle.theorem_invariance.specs.Passed.{PassesMakeCodeAlone, PassedIsMadeOfCode};
ghost use Rattle.theorem_invariance.specs.Passed.{PassedHasSameText, PassedHasSameCode};

/// The code after any list of passes depends only on the code before it, and the machine code depends only on that.
/// From two lists of functions with pairwise equal code up to positions, the same passes make functions with the same
/// `.text`, and with pairwise equal machine code up to positions; if origins are equal too, then with equal machine
/// code and origins.
pub fn passes_alone()
    ensures code { PassesMakeCodeAlone }
    ensures made { PassedIsMadeOfCode }
    ensures alike { PassedHasSameText }
    ensures same { PassedHasSameCode }
{}
