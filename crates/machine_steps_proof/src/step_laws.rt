//! Laws about the machine's steps against those of a function with its frame, each the contract of a function that does
//! nothing.

ghost use Rattle.machine_steps_proof.specs.Steps.{StepsBeside, StaysBeside, StartsBeside};

/// At the address of an instruction the machine's steps simulate the instruction's: equal registers and events, equal
/// memory except the frame's bytes, and written slots in the frame's bytes.
pub fn steps_beside()
    ensures { StepsBeside }
{}

/// A step over a debug item or a block's end is no step of the machine, and preserves the match.
pub fn stays_beside()
    ensures { StaysBeside }
{}

/// The start states match.
pub fn starts_beside()
    ensures { StartsBeside }
{}
