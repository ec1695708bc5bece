//! Laws about unwinding, each the contract of a function that does nothing.

ghost use Rattle.frame_theorem.specs.Compiled.{CompiledUnwinds};
ghost use Rattle.frame_theorem.specs.Laws.{StandingUnwinds, FramesStand, FollowersUnwind};
ghost use Rattle.frame_theorem.specs.StandsOn.{FrameStandsOn};
ghost use Rattle.frame_theorem.specs.Suspended.{CallsKeepCaller, SuspendedFramesHold};

use sem_machine::laws::LocationLists;

/// The frame stands at each state that steps lead to from an entry, whatever slots that aren't written get meanwhile.
pub fn frame_stands_on()
    ensures { FrameStandsOn }
{}

/// Where the frame stands, the rules of its state find the values that registers had at the function's start.
pub fn standing_unwinds()
    ensures { StandingUnwinds }
{}

/// At each line that the machine comes to the frame stands, unless the source stops on a frame fault before.
pub fn frames_stand()
    ensures { FramesStand }
{}

/// A section with the rules of each entry unwinds to the start at each line that the machine comes to, unless the source
/// stops on a frame fault before.
pub fn followers_unwind()
    ensures { FollowersUnwind }
{}

/// A call that is answered leaves the registers and the bytes that its callee has to keep, whatever the callee leaves
/// in what it owns of the frame.
pub fn calls_keep_caller()
    ensures { CallsKeepCaller }
{}

/// In a suspended frame the places that a callee keeps hold the source's values, if lists name only places with the
/// value.
pub fn suspended_frames_hold<L: LocationLists>()
    ensures { SuspendedFramesHold L.gives }
{}

/// The section of a compiled output unwinds so in each function.
pub fn compiled_unwinds()
    ensures { CompiledUnwinds }
{}
