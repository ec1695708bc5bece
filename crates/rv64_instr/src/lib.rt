//! RV64I machine instructions, as LLVM's MIR writes them: registers, opcodes, operands, and the form of each
//! opcode's operands. An instruction always has the form of its opcode, with its immediate in range, so no
//! user of it checks this again.
#![tactic(auto)]

pub use base_ids as base_ids_crate;
pub use base_list as base_list_crate;

pub mod arithmetic;
pub mod decoded;
pub mod effects;
pub mod form;
pub mod instr;
pub mod inverse;
pub mod linked;
pub mod name;
pub mod op;
pub mod operand;
pub mod place;
pub mod reg;
pub mod reserve;
pub mod start;
pub mod symbol;
