//! Opcodes of item lines.

ghost use Rattle.std.specs.Prelude.{◌≡◌, Some, None};
ghost use Rattle.read_item.specs.Opcode.{
  opcode_of,
  other_opcode_of,
  debug_opcode_of,
  op_named,
  is_read,
  if_read,
  without_return,
  returning,
};

use rv64_instr::op::Op;

/// An opcode of debug lines.
#[derive(Clone, Copy, Debug, PartialEq, Eq)]
pub enum DebugOpcode {
    /// `DBG_VALUE`: a variable's value is in a register, or a constant.
    Value,
    /// `DBG_INSTR_REF`: a variable's value is an operand of the instruction with a debug instruction number.
    InstrRef,
    /// `DBG_VALUE_LIST`: a variable's value is computed from several.
    ValueList,
    /// `DBG_PHI`: a debug instruction number for the value in a register or a spill slot.
    Phi,
}

/// The kind of line that an opcode is for.
#[derive(Clone, Copy, Debug, PartialEq, Eq)]
pub enum Opcode {
    /// An instruction.
    Code(Op),
    /// `PseudoMovAddr`: the two instructions that set a register to an address.
    Address,
    /// A debug value or DBG_PHI.
    Debug(DebugOpcode),
    /// `DBG_LABEL`, which is ignored.
    Label,
    /// `KILL` and `IMPLICIT_DEF`, which are ignored with any operands.
    Pseudo,
    /// `ADJCALLSTACKDOWN` and `ADJCALLSTACKUP`, which are ignored, but refused outside the linked language if the call
    /// frame takes bytes.
    CallFrame,
}

/// The opcode of an instruction with this mnemonic that is read.
fn op_named(linked: bool, name: &[u8]) -> Option<Op>
    ensures { result ≡ op_named linked name.now }
{
    if_read(linked, Op::from_mnemonic(name))
}

fn if_read(linked: bool, found: Option<Op>) -> Option<Op>
    ensures { result ≡ if_read linked found }
{
    match found {
        Some(op) => { if is_read(linked, op) { Some(op) } else { None } }
        None => None,
    }
}

/// The opcode of a call with the word `noreturn` before it.
pub fn without_return(op: Op) -> Op
    ensures { result ≡ without_return op }
{
    match op {
        Op::PseudoCall => Op::NoReturnCall,
        Op::PseudoCallIndirect => Op::NoReturnCallIndirect,
        _ => op,
    }
}

/// The opcode of a line of code: the word `noreturn` counts in the linked language alone.
pub fn returning(linked: bool, no_return: bool, op: Op) -> Op
    ensures { result ≡ returning linked no_return op }
{
    if linked && no_return {
        without_return(op)
    } else {
        op
    }
}

/// Whether an opcode is read: a call by a register, in tail position, or that doesn't return is one of the linked
/// language.
fn is_read(linked: bool, op: Op) -> bool
    ensures { result ≡ is_read linked op }
{
    match op {
        Op::PseudoCallIndirect
        | Op::PseudoTail
        | Op::PseudoTailIndirect
        | Op::NoReturnCall
        | Op::NoReturnCallIndirect => linked,
        Op::Registers(_)
        | Op::Immediate(_)
        | Op::Lui
        | Op::Branch(_)
        | Op::Load(_)
        | Op::Store(_)
        | Op::Copy
        | Op::PseudoBr
        | Op::PseudoCall
        | Op::PseudoRet => true,
    }
}

/// The debug or ignored opcode with this name.
#[tactic(auto, unfolding(crate::specs::Opcode::debug_opcode_of))]
fn debug_opcode_of(name: &[u8]) -> Option<Opcode>
    ensures { result ≡ debug_opcode_of name.now }
{
    if name == b"DBG_VALUE".as_slice() {
        Some(Opcode::Debug(DebugOpcode::Value))
    } else if name == b"DBG_INSTR_REF".as_slice() {
        Some(Opcode::Debug(DebugOpcode::InstrRef))
    } else if name == b"DBG_VALUE_LIST".as_slice() {
        Some(Opcode::Debug(DebugOpcode::ValueList))
    } else if name == b"DBG_PHI".as_slice() {
        Some(Opcode::Debug(DebugOpcode::Phi))
    } else if name == b"DBG_LABEL".as_slice() {
        Some(Opcode::Label)
    } else if name == b"KILL".as_slice() || name == b"IMPLICIT_DEF".as_slice() {
        Some(Opcode::Pseudo)
    } else if name == b"ADJCALLSTACKDOWN".as_slice() || name == b"ADJCALLSTACKUP".as_slice() {
        Some(Opcode::CallFrame)
    } else {
        None
    }
}

/// The opcode with this name that isn't one of an instruction.
fn other_opcode_of(linked: bool, name: &[u8]) -> Option<Opcode>
    ensures { result ≡ other_opcode_of linked name.now }
{
    if linked && name == b"PseudoMovAddr".as_slice() {
        Some(Opcode::Address)
    } else {
        debug_opcode_of(name)
    }
}

/// The opcode with this name, and `None` exactly if there is none; `linked` is whether those of the linked language are
/// read.
#[tactic(auto, unfolding(crate::specs::Opcode::opcode_of))]
pub fn opcode_of(linked: bool, name: &[u8]) -> Option<Opcode>
    ensures { result ≡ opcode_of linked name.now }
{
    match op_named(linked, name) {
        Some(op) => Some(Opcode::Code(op)),
        None => other_opcode_of(linked, name),
    }
}
