//! Positions of an instruction's operands.

ghost use Rattle.std.specs.Prelude.{◌≡◌};
ghost use Rattle.read_item.specs.Place.{places, front, behind};

use rv64_instr::op::{ImmediateOp, Op};

/// What kind of operand a position takes.
#[derive(Clone, Copy, Debug, PartialEq, Eq)]
pub enum OperandKind {
    /// A register that is read.
    Register,
    /// A register, or a stack object.
    Object,
    /// A register, or a spill slot.
    Slot,
    /// An immediate.
    Number,
    /// A block.
    Block,
    /// A symbol.
    Symbol,
    /// A register mask.
    Mask,
    /// An implicit register: the position is after those of the opcode.
    Implicit,
}

const PAIR: [OperandKind; 2] = [OperandKind::Register, OperandKind::Register];

const NUMBERED: [OperandKind; 2] = [OperandKind::Register, OperandKind::Number];

const OBJECT: [OperandKind; 2] = [OperandKind::Object, OperandKind::Number];

const SLOT: [OperandKind; 2] = [OperandKind::Slot, OperandKind::Number];

const UPPER: [OperandKind; 1] = [OperandKind::Number];

const BRANCH: [OperandKind; 3] = [
    OperandKind::Register,
    OperandKind::Register,
    OperandKind::Block,
];

const OBJECT_STORE: [OperandKind; 3] = [
    OperandKind::Register,
    OperandKind::Object,
    OperandKind::Number,
];

const SLOT_STORE: [OperandKind; 3] = [
    OperandKind::Register,
    OperandKind::Slot,
    OperandKind::Number,
];

const COPY: [OperandKind; 1] = [OperandKind::Register];

const JUMP: [OperandKind; 1] = [OperandKind::Block];

const CALL: [OperandKind; 2] = [OperandKind::Symbol, OperandKind::Mask];

const RETURN: [OperandKind; 0] = [];

const HELD_CALL: [OperandKind; 2] = [OperandKind::Register, OperandKind::Mask];

const HELD_GONE: [OperandKind; 2] = [OperandKind::Implicit, OperandKind::Mask];

const TAIL: [OperandKind; 1] = [OperandKind::Symbol];

const HELD_TAIL: [OperandKind; 1] = [OperandKind::Implicit];

/// The positions of the operands of `PseudoMovAddr`.
pub const ADDRESS: [OperandKind; 2] = [OperandKind::Number, OperandKind::Number];

/// The positions of an opcode's operands after the opcode, without implicit operands. `slot` is whether `%stack.N` in
/// an address is a spill slot.
pub fn places(op: Op, slot: bool) -> &'static [OperandKind]
    ensures { result.now ≡ places op slot }
{
    match op {
        Op::Registers(_) => &PAIR,
        Op::Immediate(ImmediateOp::Addi) => &OBJECT,
        Op::Immediate(_) => &NUMBERED,
        Op::Lui => &UPPER,
        Op::Branch(_) => &BRANCH,
        Op::Load(_) if slot => &SLOT,
        Op::Load(_) => &OBJECT,
        Op::Store(_) if slot => &SLOT_STORE,
        Op::Store(_) => &OBJECT_STORE,
        Op::Copy => &COPY,
        Op::PseudoBr => &JUMP,
        Op::PseudoCall | Op::NoReturnCall => &CALL,
        Op::PseudoRet => &RETURN,
        Op::PseudoCallIndirect => &HELD_CALL,
        Op::NoReturnCallIndirect => &HELD_GONE,
        Op::PseudoTail => &TAIL,
        Op::PseudoTailIndirect => &HELD_TAIL,
    }
}

/// The first position; after the last come implicit registers only.
pub fn front(places: &[OperandKind]) -> OperandKind
    ensures { result ≡ front places.now }
{
    match places {
        [place, ..] => *place,
        [] => OperandKind::Implicit,
    }
}

/// The positions after the first.
pub fn behind(places: &[OperandKind]) -> &[OperandKind]
    ensures { result.now ≡ behind places.now }
{
    match places {
        [_, rest @ ..] => rest,
        [] => places,
    }
}
