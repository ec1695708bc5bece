//! The law about the suspended functions of a program, the contract of a function that does nothing.

ghost use Rattle.kept_program.specs.Suspended.{SuspendedProgramsHold};

/// Where the machine on the code of a function of a compiled program stands at code from which control goes to a callee,
/// each place that the function's lists give for a suspended frame holds the value of the newest assignment, in whatever
/// registers and memory the callee leaves, unless the source stops on a frame fault before.
pub fn suspended_programs_hold()
    ensures { SuspendedProgramsHold }
{}
