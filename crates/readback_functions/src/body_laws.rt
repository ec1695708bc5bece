//! The law on bodies that were read.

ghost use Rattle.readback_functions.specs.Known.{BodiesAreKnown};

/// Invariants of a body that was read: which stack objects it names, that it has few constants, debug instruction
/// numbers and variables, and which line each of its items comes from.
pub fn bodies_are_known()
    ensures { BodiesAreKnown }
{}
