//! Round trip of debug value substitutions: the contract of an empty function.

ghost use Rattle.theorem_print_read_back.specs.Substitutions.{SubstitutionsReadBack};

/// The printed lines of debug value substitutions within the limits, of which no two have one source, parse back to
/// the same substitutions.
pub fn substitutions_read_back()
    ensures { SubstitutionsReadBack }
{}
