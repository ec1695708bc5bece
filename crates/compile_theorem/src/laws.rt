//! Theorems on outputs. Each is the contract of an empty function.

ghost use Rattle.compile_theorem.specs.Laws.{
  SourcesFollowThemselves,
  CodesAreCompiled,
  CompiledPromises,
  CompiledIsExact,
  CompiledIsLaidOut,
  CompiledListsPassed,
  CompiledHasWords,
};

/// A source function that was read is the result of no passes on itself: it refines itself.
pub fn sources_follow_themselves()
    ensures { SourcesFollowThemselves }
{}

/// Connects compiler code to the definition of compiled functions: if a function that passes made of a source has this
/// machine code at this address, these location lists of the source's variables over the code's entries, and this
/// listing, then it is compiled at that address.
pub fn codes_are_compiled()
    ensures { CodesAreCompiled }
{}

/// The headline holds of each source and its part of a compiled output: the machine code refines the source, and each
/// location list entry holds the value of the variable's newest assignment, unless the source stops on a frame fault
/// before.
pub fn compiled_promises()
    ensures { CompiledPromises }
{}

/// The location lists of a compiled output are exact: at the address of each byte of a listed line they have, for each
/// part of each variable, the wanted place, and none if none is wanted. At any other address they have none.
pub fn compiled_is_exact()
    ensures { CompiledIsExact }
{}

/// A compiled output is laid out: its functions fill `.text` in order, the lines of each fill its addresses, and the
/// variables are listed with consecutive list numbers.
pub fn compiled_is_laid_out()
    ensures { CompiledIsLaidOut }
{}

/// The listing of a compiled output shows the functions that passes made, with their frames.
pub fn compiled_lists_passed()
    ensures { CompiledListsPassed }
{}

/// At the address of each listed instruction of a compiled output, `.text` has the instruction's encoding.
pub fn compiled_has_words()
    ensures { CompiledHasWords }
{}
