//! Live intervals.

use base_list::List;
use rv64_instr::reg::Reg;

/// The live interval of a virtual register (LLVM: `LiveInterval`).
#[derive(Clone, Copy, Debug, PartialEq, Eq)]
pub struct LiveInterval {
    /// The register.
    pub register: Reg,
    /// The number of the first code that names it, or right before or after which it is live.
    pub start: u32,
    /// The number of the last such code.
    pub end: u32,
}

/// Live intervals in the order in which registers are allocated: by their starts, then by their registers.
pub type LiveIntervals = List<LiveInterval>;
