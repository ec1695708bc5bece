//! Order of debug values and kept code: the contract of an empty function.

ghost use Rattle.theorem_marks.specs.Stand.{MarksStand, CompiledMarksStand};

/// Each debug value of a source that isn't reported lost is in the passed function, in its block, with the same kept
/// code before it as in the source. This holds for every compilation of a program.
pub fn marks_stand()
    ensures passes { MarksStand }
    ensures compiled { CompiledMarksStand }
{}
