//! The call frame information of machine code (DWARF 5 section 6.4.1): the rows of each function, from its frame's
//! state at each entry. Before the prologue and at a return all is as at the function's entry; between them x2 is
//! lowered by the frame's size, and from the end of the prologue on the registers that it saves are in the frame.
#![tactic(auto)]

pub mod description;
pub mod laws;
mod saved;
mod state;
