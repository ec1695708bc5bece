//! Invariance of runs under debug items: the contract of an empty function.

ghost use Rattle.theorem_invariance.specs.RunAlone.{RunsWriteCodeAlone};

/// Two runs of `compile` that finish, with the same passes and the same registers for
/// spilling write the same `.text` if the functions in both texts, pairwise, have the same names, slots, stack objects,
/// block numbers and code in order, and expose the same to other code.
pub fn runs_write_code_alone()
    ensures { RunsWriteCodeAlone }
{}
