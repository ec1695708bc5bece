//! Functions from texts.

use base_ids::function_ids::{DebugNumber, OperandIndex};
use base_ids::metadata::NodeId;
use frame_lowering::lower::lower;
use frame_lowering::physical::is_physical;
use mir_func::debug_substitution::OperandPair;
use mir_func::framed::Framed;
use mir_func::func::Func;
use mir_func::variable::{Fragment, VarId};
use read_program::closing::Parsed;
use read_program::program::read_program;
use rv64_instr::reg::{Reg, physical};
use std::alloc::Global;
use std::test::Fail;

/// The function of a text with this body.
pub(crate) fn function_of(alloc: Global, body: &str) -> Result<Parsed, Fail> {
    let mut text = String::from_str(alloc, "---\nname: f\nbody: |\n")?;
    text.push_str(body)?;
    text.push_str("...\n")?;
    let bytes = text.as_bytes();
    if 16_777_216 < bytes.len() {
        return Err(Fail::from("a long text"));
    }
    let mut functions = read_program(alloc, false, bytes)?.functions.into_vec();
    Ok(functions.pop().ok_or("a function")?)
}

/// The function of a text, with its frame.
pub(crate) fn framed_of(alloc: Global, parsed: &Parsed) -> Result<Framed, Fail> {
    with_frame(alloc, &parsed.func)
}

/// A function with its frame.
pub(crate) fn with_frame(alloc: Global, f: &Func) -> Result<Framed, Fail> {
    if is_physical(f) {
        Ok(lower(alloc, f)?)
    } else {
        Err(Fail::from("virtual registers"))
    }
}

/// The variable of a node, as a whole.
pub(crate) const fn variable(node: u32) -> VarId {
    VarId {
        node: NodeId(node),
        inlined_at: None,
        fragment: None,
    }
}

/// A part of the variable of a node.
pub(crate) fn part(node: u32, offset: u32, length: u32) -> VarId {
    VarId {
        node: NodeId(node),
        inlined_at: None,
        fragment: Fragment::new(offset, length),
    }
}

/// Operand 0 of the instruction with a debug instruction number.
pub(crate) const fn pair(number: u32) -> OperandPair {
    OperandPair {
        number: DebugNumber(number),
        operand: OperandIndex(0),
    }
}

/// A register.
pub(crate) fn register(n: u32) -> Result<Reg, Fail> {
    Ok(physical(n).ok_or("no register")?)
}
