//! The law that functions are read back.

ghost use Rattle.readback_functions.specs.Stripped.{StrippedReadsBack};

/// The document of a function that was read and whose names consist of bytes, printed without its debug items, is read
/// as the stripped function.
pub fn functions_read_back()
    ensures { StrippedReadsBack }
{}
