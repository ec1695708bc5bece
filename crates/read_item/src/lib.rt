//! Semantic checks of one line of a machine function's body: the instruction, debug value or DBG_PHI that it is, or
//! why it is refused.
//!
//! A parsed line names an opcode and operands. An instruction has the operands of its opcode: the registers that it
//! defines, then at each position a register, an immediate, a block, a symbol or a mask, then implicit registers. A
//! `%stack.N` is a spill slot or a stack object; it is allowed as the address of a load or a store, and after `ADDI`.
//! So is a `%fixed-stack.N`, which is a stack object.
//! A debug line is a debug value of a variable, or the location of the value of a debug instruction number. Some
//! lines are ignored. Each failed check has its refusal, and the one with the lowest number is reported. (LLVM,
//! Machine IR (MIR) Format Reference Manual; LLVM, "Instruction referencing for debug info".)
#![tactic(auto)]

pub mod address;
pub mod code;
pub mod debug;
pub mod judge;
pub mod judged;
pub mod opcode;
mod operand;
mod place;
