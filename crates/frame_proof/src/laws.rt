//! Laws of frames: each is the contract of a function with an empty body.

ghost use Rattle.frame_proof.specs.Runs.{FrameFollows};
ghost use Rattle.frame_proof.specs.Stands.{FrameAlwaysStands, FrameGivesBack};

/// A source that simulates a function simulates it with its frame, over code items.
pub fn frame_follows()
    ensures { FrameFollows }
{}

/// At each state of each run of a sound function with its frame, from an entry with room for a frame below x2,
/// whatever its slots have at first: x2 is its value at entry less the lowering of the frame's state at the position,
/// and the callee-saved registers and the return address are in their save slots or as at entry.
pub fn frame_stands()
    ensures { FrameAlwaysStands }
{}

/// At a return of such a run the stack pointer, the return address and the callee-saved registers are as at entry.
pub fn frame_gives_back()
    ensures { FrameGivesBack }
{}
