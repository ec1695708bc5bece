//! Existence of starts: the contract of an empty function.

ghost use Rattle.theorem_marks.specs.Starts.{RunsCanStart};

/// A run of a function can start with any arguments and any values of 64 bits as its calls' results. So a statement
/// about runs from all such starts isn't vacuous.
pub fn runs_can_start()
    ensures { RunsCanStart }
{}
