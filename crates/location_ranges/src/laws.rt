//! The law about a variable's list, the contract of a function that does nothing.

ghost use Rattle.location_ranges.specs.Laws.{RangesAreUnique};

/// Over the same entries of a program a variable has one list of exact ranges.
pub fn ranges_are_unique()
    ensures { RangesAreUnique }
{}
