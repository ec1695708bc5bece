//! Theorem on reports: the contract of an empty function.

ghost use Rattle.report_command.specs.ProgramReport.{CompilationsAreReported};

/// The report of a compilation is that of each passed function, with its code, its variables and their location lists,
/// and what the passes lost.
pub fn compilations_are_reported()
    ensures { CompilationsAreReported }
{}
