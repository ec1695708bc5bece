//! Numbers in the text of a function.

ghost use Rattle.std.specs.Prelude.{◌≡◌};
ghost use Rattle.base_ids.specs.Limits.{text_number};

use crate::limits::FIXED;
use std::marker::Model;

/// The N of a block `bb.N` (LLVM, Machine IR (MIR) Format Reference Manual, "Machine Basic Blocks").
#[derive(Clone, Copy, Debug, PartialEq, Eq, PartialOrd, Ord)]
pub struct BlockId(pub u32);

impl Model for BlockId {
    ghost use Rattle.std.specs.Prelude.{ℕ};

    ghost Value = { ℕ };

    ghost view = { λ b. b.0 };

    ghost inverse = { λ b. record { 0 = b } };
}

impl BlockId {
    /// The plain number.
    pub fn number(self) -> u32
        ensures { result ≡ self }
    {
        self.0
    }
}

/// The number of a frame slot of eight bytes: the N of `%stack.N`, or in a function with its frame the slot's offset
/// from x2 in bytes.
#[derive(Clone, Copy, Debug, PartialEq, Eq, PartialOrd, Ord)]
pub struct SlotId(pub u32);

impl Model for SlotId {
    ghost use Rattle.std.specs.Prelude.{ℕ};

    ghost Value = { ℕ };

    ghost view = { λ s. s.0 };

    ghost inverse = { λ s. record { 0 = s } };
}

impl SlotId {
    /// The plain number.
    pub fn number(self) -> u32
        ensures { result ≡ self }
    {
        self.0
    }
}

/// The number of a stack object: the N of `%stack.N` that is no slot, or the N of `%fixed-stack.N` plus `FIXED`.
#[derive(Clone, Copy, Debug, PartialEq, Eq, PartialOrd, Ord)]
pub struct ObjectId(pub u32);

impl Model for ObjectId {
    ghost use Rattle.std.specs.Prelude.{ℕ};

    ghost Value = { ℕ };

    ghost view = { λ o. o.0 };

    ghost inverse = { λ o. record { 0 = o } };
}

impl ObjectId {
    /// The plain number.
    pub fn number(self) -> u32
        ensures { result ≡ self }
    {
        self.0
    }

    /// The N of its text.
    pub fn text_number(self) -> u32
        ensures { result ≡ text_number self }
    {
        if FIXED <= self.0 {
            self.0 - FIXED
        } else {
            self.0
        }
    }
}

/// A debug instruction number: the N of `debug-instr-number N` (LLVM, "Instruction referencing for debug info").
#[derive(Clone, Copy, Debug, PartialEq, Eq, PartialOrd, Ord)]
pub struct DebugNumber(pub u32);

impl Model for DebugNumber {
    ghost use Rattle.std.specs.Prelude.{ℕ};

    ghost Value = { ℕ };

    ghost view = { λ n. n.0 };

    ghost inverse = { λ n. record { 0 = n } };
}

impl DebugNumber {
    /// The plain number.
    pub fn number(self) -> u32
        ensures { result ≡ self }
    {
        self.0
    }
}

/// The index of an operand of an instruction, from 0, definitions first.
#[derive(Clone, Copy, Debug, PartialEq, Eq, PartialOrd, Ord)]
pub struct OperandIndex(pub u32);

impl Model for OperandIndex {
    ghost use Rattle.std.specs.Prelude.{ℕ};

    ghost Value = { ℕ };

    ghost view = { λ i. i.0 };

    ghost inverse = { λ i. record { 0 = i } };
}

impl OperandIndex {
    /// The plain number.
    pub fn number(self) -> u32
        ensures { result ≡ self }
    {
        self.0
    }
}

/// The index of a block in its function, from 0; in a function with its frame 0 is the prologue.
#[derive(Clone, Copy, Debug, PartialEq, Eq, PartialOrd, Ord)]
pub struct BlockIndex(pub u32);

impl Model for BlockIndex {
    ghost use Rattle.std.specs.Prelude.{ℕ};

    ghost Value = { ℕ };

    ghost view = { λ b. b.0 };

    ghost inverse = { λ b. record { 0 = b } };
}

impl BlockIndex {
    /// The plain number.
    pub fn number(self) -> u32
        ensures { result ≡ self }
    {
        self.0
    }
}
