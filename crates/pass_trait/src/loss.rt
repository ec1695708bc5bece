//! What passes lose of debug information, and for which reasons.
use mir_substitution::base_ids_crate::function_ids::DebugNumber;
use mir_substitution::base_list_crate::List;
use sem_simulation::mir_func_crate::position::Pos;
use sem_simulation::rv64_instr_crate::reg::Reg;

/// Why something is lost. The order is that of reports.
#[derive(Clone, Copy, Debug, PartialEq, Eq, PartialOrd, Ord)]
pub enum Reason {
    /// Its instruction was removed, and isn't a copy.
    Removed,
    /// The location that it reads may hold another value than before the pass.
    WrongPlace,
    /// It reads a register that spilling uses as scratch.
    Scratch,
    /// Its block was bypassed: all branches to it go on to where it leads.
    Bypassed,
    /// Its block is unreachable.
    Unreachable,
    /// Fewer than two scratch registers are free.
    NoScratch,
    /// A call or added code names the register.
    CallNamed,
    /// The register is live into the first block, which is the target of a branch.
    EntryLoop,
    /// There are as many slots and stack objects as a function may have.
    NoSlot,
}

/// What is lost.
#[derive(Clone, Copy, Debug, PartialEq, Eq, PartialOrd, Ord)]
pub enum Lost {
    /// A debug instruction number: no operand or DBG_PHI has its value any more.
    Number(DebugNumber),
    /// The debug value at this position of the source: it is undef now, or deleted.
    Mark(Pos),
    /// A register that was to be spilled and wasn't.
    Register(Reg),
}

/// One loss of a pass, with its reason (LLVM: a dropped debug value).
#[derive(Clone, Copy, Debug, PartialEq, Eq, PartialOrd, Ord)]
pub struct Loss {
    /// What is lost.
    pub what: Lost,
    /// Why it is lost.
    pub reason: Reason,
}

/// The losses of a pass or of several. Those of one step are ordered: numbers, debug values by position, registers, and
/// for the same one by reason. They have no duplicates.
pub type Losses = List<Loss>;
