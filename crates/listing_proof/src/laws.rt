//! Theorems on the listings of functions. Each is the contract of an empty function.

ghost use Rattle.listing_proof.specs.Laws.{
  BodiesArePrintable,
  ReadFunctionsHavePrintableBodies,
  ReadFunctionsArePrintable,
};

/// A sound function with a printable body, whose code has the form of its opcode, is printable with its frame, if
/// that is a function with a frame (`IsFramed`).
pub fn bodies_are_printable()
    ensures { BodiesArePrintable }
{}

/// A function that was read has a printable body: its numbers have 32 bits, and the text of each of its items
/// determines it.
pub fn read_functions_have_printable_bodies()
    ensures { ReadFunctionsHavePrintableBodies }
{}

/// A function that was read is printable with its frame, if that is a function with a frame (`IsFramed`).
pub fn read_functions_are_printable()
    ensures { ReadFunctionsArePrintable }
{}
