//! The law about the rows of a program, the contract of a function that does nothing.

ghost use Rattle.program_rows.specs.Stand.{ProgramRowsStand};

/// The rows of each function give each address the place of the source position there. The first one is at the
/// function's first address, with the line of its body, and the second one at the first word behind the prologue.
pub fn program_rows_stand()
    ensures { ProgramRowsStand }
{}
