//! Laws about the inlined subroutines of a function, each the contract of a function that does nothing.

ghost use Rattle.inline_subroutines.specs.Laws.{RangesAreOfInlinedCode, RangesAscend, SubroutinesAreOrdered};

/// An address is in the ranges of a subroutine exactly if the first code at or after its instruction's origin was inlined
/// through the subroutine's call.
pub fn ranges_are_of_inlined_code()
    ensures { RangesAreOfInlinedCode }
{}

/// The ranges of a subroutine ascend, and no two touch.
pub fn ranges_ascend()
    ensures { RangesAscend }
{}

/// A call has one subroutine at most, which stands behind the one in whose code it is.
pub fn subroutines_are_ordered()
    ensures { SubroutinesAreOrdered }
{}
