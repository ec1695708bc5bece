//! How steps of the simulator end.

use rv64_instr::decoded::Way;

/// Why a run stops.
#[derive(Clone, Copy, Debug, PartialEq, Eq)]
pub enum Stop {
    /// It ends on this way: back to the caller where the word at the counter is `JALR x0, 0(x1)` (RISC-V Unprivileged
    /// ISA, "Unconditional Jumps"), or for a callee, by a call in tail position or one that doesn't return.
    Ended(Way),
    /// No entry begins at the program counter.
    Left,
    /// The word at the program counter encodes no machine operation, or doesn't go to the callee of the instruction
    /// there.
    BadWord(u32),
}

/// How a step ends.
#[derive(Clone, Copy, Debug, PartialEq, Eq)]
pub enum Stepped {
    /// The run continues.
    Went,
    /// The run stops at this step, and would at each later one.
    Stopped(Stop),
}
