//! The law that stack frames are read back.

ghost use Rattle.readback_functions.specs.Frame.{FramesReadBack};

/// The slots and objects of a function, printed and read as stack entries, are its slots and its objects again,
/// if code names the same objects.
pub fn frames_read_back()
    ensures { FramesReadBack }
{}
