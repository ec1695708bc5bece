//! Laws about images, each the contract of a function that does nothing.

ghost use Rattle.machine_proof.specs.Entries.{EntriesArePoints, ImageLinesAreEntries, LinesAreEntries};
ghost use Rattle.machine_proof.specs.LaidOut.{ImagesMeetTheHeadline, SourcesMeetTheHeadline};

use sem_machine::laws::LocationLists;

/// The image of each function that simulates a source, without virtual registers and with a frame and arguments on the
/// stack that reach at most 2,032 bytes above x2, satisfies the source's `Headline`, if lists name only required
/// places.
pub fn images_meet_the_headline<L: LocationLists>()
    ensures { ImagesMeetTheHeadline L.gives }
{}

/// The image of each source as read, with its frame, which with the arguments on the stack reaches at most 2,032 bytes
/// above x2, and its layout, satisfies its `Headline`, if lists name only places with the value.
pub fn sources_meet_the_headline<L: LocationLists>()
    ensures { SourcesMeetTheHeadline L.gives }
{}

/// An entry of a point begins at an address if and only if the address is that of the point's instruction.
pub fn entries_are_points()
    ensures { EntriesArePoints }
{}

/// The lines and the entries of a layout have the same addresses and origins, in the same order.
pub fn lines_are_entries()
    ensures { LinesAreEntries }
{}

/// For each line of an image an entry of its layout begins at the line's address, with the same origin.
pub fn image_lines_are_entries()
    ensures { ImageLinesAreEntries }
{}
