//! The law on the names in a program.

ghost use Rattle.readback_functions.specs.Bytes.{NamesAreOfBytes};

/// In a program read from a text of bytes, the names of functions and symbols consist of bytes.
pub fn names_are_of_bytes()
    ensures { NamesAreOfBytes }
{}
