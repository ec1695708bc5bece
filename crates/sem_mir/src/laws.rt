//! Laws of the semantics of functions: each is the contract of a function with an empty body.

ghost use Rattle.sem_mir.specs.Effects.{EffectsHold};
ghost use Rattle.sem_mir.specs.Itself.{SourceFollowsItself};

/// What `effect`, `uses` and `defines` say of an instruction is true of each of its runs: a location that it doesn't
/// define keeps its content, its outcome depends only on the locations that it uses and on memory, answers and
/// events, and likewise for what it sets, moves and fixes, and for pure code.
pub fn effects_hold()
    ensures { EffectsHold }
{}

/// A function as it is read follows itself, that is, refines itself, with matched block ends. Its debug values and
/// numbers see all that the source's do, except the stack pointer.
pub fn source_follows_itself()
    ensures { SourceFollowsItself }
{}
