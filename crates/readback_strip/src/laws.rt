//! The law that stripped programs are read back.

ghost use Rattle.readback_strip.specs.Text.{StrippedTextsAreRead};

/// The stripped text of a program is accepted, and read as the stripped program: the functions of the program without
/// their debug items, with the positions in the new text as origins and silent positions, and without metadata.
/// Stripping it again results in the same text.
pub fn stripped_texts_are_read()
    ensures { StrippedTextsAreRead }
{}
