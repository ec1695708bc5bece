//! The entities that are tracked along paths.

use base_ids::function_ids::SlotId;
use base_list::List;
use mir_func::debug_substitution::OperandPair;
use mir_func::variable::VarId;
use rv64_instr::reg::Reg;

/// An entity that has a token along a path, or none (LLVM: what InstrRefBasedLDV assigns value numbers to).
#[derive(Clone, Copy, Debug, PartialEq, Eq)]
pub enum Tracked {
    /// A register. x0 and x2 aren't tracked: x0 has the token of the constant 0, and x2 never has a token.
    Register(Reg),
    /// A frame slot, by its offset from x2 in bytes.
    Slot(SlotId),
    /// An operand of the instruction with a debug instruction number.
    Pair(OperandPair),
    /// A part of a variable.
    Part(VarId),
    /// A constant modulo 2^64, which has the same token at every position.
    Number(u64),
}

/// Tracked entities, each listed once.
pub type TrackedItems = List<Tracked>;
