//! Variables of the program that is debugged, their parts, and the values of marks.

ghost use Rattle.std.specs.Prelude.{◌≡◌, ◌+◌, ◌<◌, IfSome, IsNone, ◌↔◌};
ghost use Rattle.mir_func.specs.Variables.{are_same_bytes, do_meet, overlaps};

use crate::debug_substitution::OperandPair;
use crate::limits::{MAX_PART, MAX_PART_END};
use rv64_instr::base_ids_crate::metadata::NodeId;
use rv64_instr::reg::Reg;
use std::marker::Model;

/// A part of a variable: 1 to 8 bytes from an offset on, all of them below byte 8,192 (LLVM Language Reference,
/// `DW_OP_LLVM_fragment`).
#[derive(Clone, Copy, Debug, PartialEq, Eq)]
pub struct Fragment {
    offset: u32,
    length: u32,
}

impl Model for Fragment {
    ghost use Rattle.mir_func.specs.Parts.{Bytes, IsPart};

    ghost Value = { Bytes };

    ghost view = { λ f. record { offset = f.offset; length = f.length } };

    ghost invariant = { λ f. IsPart (record { offset = f.offset; length = f.length }) };

    ghost inverse = { λ b. record { offset = b.offset; length = b.length } };
}

impl Fragment {
    ghost use Rattle.mir_func.specs.Parts.{IsPart};

    /// So many bytes from an offset on. `None` exactly if a variable has no such part.
    pub fn new(offset: u32, length: u32) -> Option<Fragment>
        ensures none { IsNone result ↔ (IsPart (record { offset = offset; length = length }) → ⊥) }
        ensures value { IfSome result (λ f. f ≡ record { offset = offset; length = length }) }
    {
        if length == 0
            || MAX_PART < length
            || MAX_PART_END < offset
            || MAX_PART_END - offset < length
        {
            return None;
        }
        Some(Fragment { offset, length })
    }

    /// The first byte.
    pub fn offset(self) -> u32
        ensures { result ≡ self.offset }
    {
        self.offset
    }

    /// How many bytes.
    pub fn length(self) -> u32
        ensures { result ≡ self.length }
    {
        self.length
    }

    /// The byte after the last one.
    pub fn end(self) -> u32
        ensures value { result ≡ self.offset + self.length }
        ensures behind { self.offset < result }
    {
        self.offset + self.length
    }
}

/// Whether two parts are the same bytes. `None` is the whole variable, and the same as itself alone.
pub fn are_same_bytes(part: &Option<Fragment>, other: &Option<Fragment>) -> bool
    ensures { result ≡ are_same_bytes part.now other.now }
{
    match part {
        None => other.is_none(),
        Some(a) => match other {
            None => false,
            Some(b) => a.offset() == b.offset() && a.length() == b.length(),
        },
    }
}

/// Whether some byte is in both parts. `None` is the whole variable.
pub fn do_meet(part: &Option<Fragment>, other: &Option<Fragment>) -> bool
    ensures { result ≡ do_meet part.now other.now }
{
    match part {
        None => true,
        Some(a) => match other {
            None => true,
            Some(b) => { a.offset() < b.end() && b.offset() < a.end() }
        },
    }
}

/// A part of a variable of the program that is debugged, in one inlined instance of its function: some of its bytes,
/// or the whole (LLVM: `DebugVariable`).
#[derive(Clone, Copy, Debug, PartialEq, Eq)]
pub struct VarId {
    /// Its `DILocalVariable` node.
    pub node: NodeId,
    /// The node that its location is inlined at, if it is inlined.
    pub inlined_at: Option<NodeId>,
    /// The bytes of the part, or `None` for the whole variable.
    pub fragment: Option<Fragment>,
}

impl VarId {
    /// Whether both are parts of one variable and have a byte in common.
    pub fn overlaps(&self, other: &VarId) -> bool
        ensures { result ≡ overlaps self.now other.now }
    {
        self.node == other.node
            && self.inlined_at == other.inlined_at
            && do_meet(&self.fragment, &other.fragment)
    }
}

/// The value that a mark assigns to its part of a variable (LLVM: the debug operand of `DBG_VALUE` or
/// `DBG_INSTR_REF`).
#[derive(Clone, Copy, Debug, PartialEq, Eq)]
pub enum MarkValue {
    /// No value: the mark is undef (LLVM: `$noreg`).
    Nothing,
    /// A number.
    Constant(i64),
    /// The content of a register.
    At(Reg),
    /// The last value of an operand of the instruction with a debug instruction number.
    Pair(OperandPair),
}
