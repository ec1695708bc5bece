//! Theorems on the frame. Each is the contract of an empty function.

ghost use Rattle.invariance_code.specs.Alike.{FramesStrip, FramesAlike, FramesSame};

/// Removing debug items and adding the frame commute.
pub fn frames_strip()
    ensures { FramesStrip }
{}

/// If two functions have equal code up to debug items and positions, so have the functions with their frames. The same
/// holds with equal origins.
pub fn framed_alike()
    ensures alike { FramesAlike }
    ensures same { FramesSame }
{}
