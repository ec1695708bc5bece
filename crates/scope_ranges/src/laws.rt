//! Laws about the scopes of a function, each the contract of a function that does nothing.

ghost use Rattle.scope_ranges.specs.Laws.{RangesAreOfScopedCode, EachScopeIsThere};

/// An address is in the ranges of a scope exactly if the scope is on the way of the first code at or after its
/// instruction's origin.
pub fn ranges_are_of_scoped_code()
    ensures { RangesAreOfScopedCode }
{}

/// Each scope that an instruction is in is there, and once.
pub fn each_scope_is_there()
    ensures { EachScopeIsThere }
{}
