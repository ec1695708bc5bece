//! Theorems on generated functions. Each is the contract of an empty function.

ghost use Rattle.gen_program.specs.Laws.{GeneratedRunsDontFault, GeneratedFunctionsMarkWholes};

/// No run of a generated function stops on a frame fault: it reads only physical registers, accesses no memory but its
/// slots, and stores into each slot first.
pub fn generated_runs_dont_fault()
    ensures { GeneratedRunsDontFault }
{}

/// The debug values of a generated function are for whole variables.
pub fn generated_functions_mark_wholes()
    ensures { GeneratedFunctionsMarkWholes }
{}
