//! The law that the form of a printed line is judged as its item.

ghost use Rattle.readback_items.specs.Code.{FormsAreJudged};

/// The form of the line of each item that meets the conditions (`IsReadable`) is judged as the item, but with spill
/// slots for stack objects if the opcode allows both.
pub fn forms_are_judged()
    ensures { FormsAreJudged }
{}
