//! Laws about the call frame information of an object that a linker places, each the contract of a function that does
//! nothing.

ghost use Rattle.linkable_frames.specs.Laws.{LostAreSpared, LinkableUnwinds, DescriptionsUnwind};

/// The CIE undefines no register that a function gives back: neither the return address nor a saved register.
pub fn lost_registers_are_spared()
    ensures { LostAreSpared }
{}

/// The section whose CIE undefines the lost registers unwinds to the start at each line that the machine comes to, in
/// each function of a compiled output, unless its source stops on a frame fault before the line.
pub fn linkable_frames_unwind()
    ensures { LinkableUnwinds }
{}

/// So does the section of the call frame information of the functions' machine code, if it is below the size limit.
pub fn descriptions_unwind()
    ensures { DescriptionsUnwind }
{}
