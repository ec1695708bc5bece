//! The laws of printed lines.

ghost use Rattle.readback_functions.specs.Printed.{BlockLinesArePrinted, DeclaredLinesArePrinted};

/// The line of an item within the limits is printable ASCII without a space at its end, and so is that of a label.
pub fn block_lines_are_printed()
    ensures { BlockLinesArePrinted }
{}

/// The lines of a name of bytes, and of slots and objects within the limits, are printable ASCII without a space at
/// the end.
pub fn declared_lines_are_printed()
    ensures { DeclaredLinesArePrinted }
{}
