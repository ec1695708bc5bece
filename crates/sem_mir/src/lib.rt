//! The operational semantics of functions: the state of a run and its step, one item at a time, debug items
//! included; the refinement of a source by a function, whose states are matched by the origins of items; value
//! numbers along paths, and which values are in which locations on every path; and liveness. All that is proved of
//! functions is proved of these definitions. An instruction runs by its row, never by its opcode; a step looks up
//! operands only to see which of them define a register under the instruction's debug instruction number.
#![tactic(auto)]

pub use mir_func as mir_func_crate;
pub use mir_func::rv64_instr_crate as rv64_instr_crate;

pub mod laws;
pub mod operand;
