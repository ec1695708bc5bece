//! Laws about call frame information, each the contract of a function that does nothing.

ghost use Rattle.frame_table.specs.Laws.{SectionsShowFrames};

/// By a section the rules of each entry's address are those of the frame's state at its point.
pub fn sections_show_frames()
    ensures { SectionsShowFrames }
{}
