//! Laws on the parsing of printed lines: each is the contract of a function that does nothing.

ghost use Rattle.readback_items.specs.Debug.{DebugLinesReadBack};
ghost use Rattle.readback_items.specs.Laws.{LinesSayForms, LabelsReadBack};

/// The printed line of an item within the limits is parsed as the item's form.
pub fn lines_say_forms()
    ensures { LinesSayForms }
{}

/// The printed line of a debug item within the limits, without x0 and x2, whose variable is inlined at the node of
/// its location, is read back as the item, given the same metadata.
pub fn debug_lines_read_back()
    ensures { DebugLinesReadBack }
{}

/// The printed line of a label within the limit is parsed as the label of the block.
pub fn labels_read_back()
    ensures { LabelsReadBack }
{}
