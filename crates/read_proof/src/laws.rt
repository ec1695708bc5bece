//! Laws of programs that were read.

ghost use Rattle.read_proof.specs.Read.{ProgramsAreAsRead, ProgramsAreOfTheirLanguage};

/// Every program read from a text has at most 256 functions, all with the invariants of functions that were read.
pub fn programs_are_as_read()
    ensures { ProgramsAreAsRead }
{}

/// Every program read from a text has items of the language that is read.
pub fn programs_are_of_their_language()
    ensures { ProgramsAreOfTheirLanguage }
{}
