//! What passes have to leave, since other code may see it.

/// What other code may see of a function besides its calls, stores and results.
#[derive(Clone, Copy, Debug, PartialEq, Eq)]
pub enum Exposure {
    /// Nothing.
    Nothing,
    /// The registers x3 and x4 at calls and ends: C code may have global variables in them.
    Globals,
    /// All registers and slots at calls: one of them may return twice, as `setjmp` (LLVM:
    /// `MachineFunction::exposesReturnsTwice`).
    Everything,
}
