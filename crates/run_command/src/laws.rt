//! Theorems on runs. Each is the contract of an empty function.

ghost use Rattle.run_command.specs.Runs.{CompilationsCanRun, CompilationsShowCode};
ghost use Rattle.run_command.specs.Source.{RunsAreOfPrograms, NamesAreRead};

/// Each function of a compilation can be run, and its image in the output is one of the code that runs.
pub fn compilations_can_run()
    ensures can_run { CompilationsCanRun }
    ensures shown { CompilationsShowCode }
{}

/// A run of a compilation is one of a function that was read, and the values of variables in its lines are those of the
/// source, unless it stops on a frame fault before.
pub fn runs_are_of_programs()
    ensures runs { RunsAreOfPrograms }
    ensures names { NamesAreRead }
{}
