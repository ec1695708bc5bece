//! Laws about the inlined subroutines of a function, each the contract of a function that does nothing.

ghost use Rattle.inline_instances.specs.Laws.{RangesAreOfInlinedCode, RangesAscend, EachCallHasAnInstance};

/// An address is in the ranges of an instance exactly if the first code at or after its instruction's origin was inlined
/// through the instance's call.
pub fn ranges_are_of_inlined_code()
    ensures { RangesAreOfInlinedCode }
{}

/// The ranges of an instance ascend, and no two touch.
pub fn ranges_ascend()
    ensures { RangesAscend }
{}

/// Each call through which an instruction was inlined has an instance.
pub fn each_call_has_an_instance()
    ensures { EachCallHasAnInstance }
{}
