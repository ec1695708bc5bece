//! Theorems on outputs. Each is the contract of an empty function.

ghost use Rattle.theorem_invariance.specs.Compiled.{CompiledIsLaid, CompiledHasSameText};

/// Compiled functions are laid out one after the other. So the outputs of functions with pairwise equal code up to
/// debug items have the same `.text`.
pub fn compiled_alone()
    ensures laid { CompiledIsLaid }
    ensures text { CompiledHasSameText }
{}
