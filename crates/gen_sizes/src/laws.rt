//! Theorems on generated functions, and on the sizes of what they are compiled to. Each is the contract of an empty
//! function.

ghost use Rattle.gen_sizes.specs.Laws.{GeneratedHaveRegisters, GeneratedFramesAreSmall, GeneratedSectionsAreSmall};

/// Linear scan leaves no virtual register in a generated function, since it has none.
pub fn generated_have_registers()
    ensures { GeneratedHaveRegisters }
{}

/// The frame of a generated function isn't above the limit, whatever passes run: it has at most 224 slots and 13 saved
/// registers, and no stack object.
pub fn generated_frames_are_small()
    ensures { GeneratedFramesAreSmall }
{}

/// No section of a generated function is above the limit, whatever passes run: it has four variables at most, each as a
/// whole, without names and types, its location lists have no more ranges than its code has bytes, and its line number
/// table has one row.
pub fn generated_sections_are_small()
    ensures { GeneratedSectionsAreSmall }
{}
