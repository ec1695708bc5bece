//! A table of call frame information: for each function, rows of how to find the values that the caller's registers
//! had.

use base_list::List;

/// Rows, in order.
pub type RowList = List<Row>;

/// What a row says of an instruction (DWARF 5 section 6.4.1).
#[derive(Clone, Copy, Debug, PartialEq, Eq)]
pub struct FrameRow {
    /// The offset of the canonical frame address (CFA) from the stack pointer x2, in bytes. The CFA is the stack
    /// pointer's value at the function's entry.
    pub cfa_offset: u64,
    /// For each of x0 to x31, if it is saved in the frame, the distance of that doubleword below the CFA, in bytes.
    /// `None` if it isn't, as x0 and x2 never are.
    pub saved: [Option<u64>; 32],
}

/// Where the value is that a register had at the function's entry (DWARF 5 section 6.4.1, "register rules").
#[derive(Clone, Copy, Debug, PartialEq, Eq)]
pub enum RegisterRule {
    /// In the register itself: "same value".
    SameValue,
    /// In the doubleword at this distance below the CFA, in bytes: "offset(N)".
    Below(u64),
    /// The value is the CFA: "val_offset(0)", the rule of the stack pointer x2.
    FrameAddress,
    /// Nowhere: "undefined".
    Undefined,
}

/// The rules of an instruction, as a debugger applies them (DWARF 5 section 6.4.1).
#[derive(Clone, Copy, Debug, PartialEq, Eq)]
pub struct UnwindingRules {
    /// The offset of the CFA from x2, in bytes.
    pub cfa_offset: u64,
    /// The rule of each of x0 to x31.
    pub registers: [RegisterRule; 32],
}

/// A row of the table: the rules of the instructions from an address on (DWARF 5 section 6.4.1).
#[derive(Clone, Copy, Debug, PartialEq, Eq)]
pub struct Row {
    /// The address in bytes.
    pub address: u64,
    /// The rules.
    pub rules: FrameRow,
}

/// The rows of a function (DWARF 5 section 6.4.1, "frame description entry"). At its first address the CFA is the
/// stack pointer and no register is saved; rows say where this changes.
#[derive(Debug, Drop)]
pub struct FrameDescription {
    /// The address of the first instruction, in bytes.
    pub start: u64,
    /// The size of the code in bytes.
    pub size: u64,
    /// The rows, in ascending order of their addresses.
    pub rows: RowList,
}
