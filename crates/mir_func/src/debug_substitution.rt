//! Operands of instructions by their debug instruction numbers, and their substitutions.

use rv64_instr::base_ids_crate::function_ids::{DebugNumber, OperandIndex};

/// An operand of the instruction that has a debug instruction number (LLVM, "Instruction referencing for debug info":
/// a debug instruction operand pair).
#[derive(Clone, Copy, Debug, PartialEq, Eq, PartialOrd, Ord)]
pub struct OperandPair {
    /// The instruction's number.
    pub number: DebugNumber,
    /// The operand's index.
    pub operand: OperandIndex,
}

/// A substitution of debug instruction numbers: a reference to `src` has the value of `dst` (LLVM:
/// `debugValueSubstitutions`).
#[derive(Clone, Copy, Debug, PartialEq, Eq)]
pub struct DebugSubstitution {
    /// The pair that is substituted.
    pub src: OperandPair,
    /// The pair that has the value.
    pub dst: OperandPair,
    /// The part of the register that is meant, or 0 for all of it.
    pub subreg: u32,
}
