//! Machine functions with debug items (LLVM: `MachineFunction`), as every pass reads and writes them: blocks of
//! items, each with its origin, a position in the source. An item is an instruction, with its debug instruction
//! number if it has one; a mark, that is, a debug value, which assigns to a variable of the program that is
//! debugged; or a phi (`DBG_PHI`), which assigns the content of a location to a number. With their frame,
//! functions have slots at offsets from the stack pointer.
#![tactic(auto)]

pub use rv64_instr as rv64_instr_crate;
pub use rv64_instr::{base_ids_crate as base_ids_crate, base_list_crate as base_list_crate};

pub mod block;
pub mod debug_substitution;
pub mod exit;
pub mod framed;
pub mod func;
pub mod item;
pub mod limits;
pub mod location;
mod number_set;
pub mod object;
mod object_sizes;
pub mod position;
mod sound;
mod sound_objects;
pub mod strip;
pub mod successors;
pub mod variable;
