//! Line number tables that say where the prologue of each function ends: the section `.debug_line` of an object for a
//! linker, as pieces. A debugger puts the breakpoint at a function's name there.
#![tactic(auto)]

pub mod laws;
pub mod section;
