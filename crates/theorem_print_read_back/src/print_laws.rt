//! Round trip of functions: the contract of an empty function.

ghost use Rattle.theorem_print_read_back.specs.Printed.{PrintedFunctionsAreRead};

/// The printed text of a function of a program that was read from bytes is one document. With the metadata of the
/// program, it parses to the same function and the same substitutions, including origins, silent positions, debug
/// values, DBG_PHIs and debug instruction numbers.
pub fn printed_functions_are_read()
    ensures { PrintedFunctionsAreRead }
{}
