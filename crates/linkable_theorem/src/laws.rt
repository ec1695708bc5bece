//! The law about the debug sections of an object that a linker places, the contract of a function that does nothing.

ghost use Rattle.linkable_theorem.specs.Tables.{TablesGuarantee};

/// In the contents of a compiled program's debug sections the rows of each function give each address its source
/// position, with the end of the prologue, and the call frame information unwinds in each function.
pub fn tables_guarantee()
    ensures { TablesGuarantee }
{}
