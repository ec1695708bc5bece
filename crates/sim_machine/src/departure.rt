//! What control leaves a function for.

ghost use Rattle.std.specs.Prelude.{◌≡◌, IfOk, Some};
ghost use Rattle.rv64_instr.specs.Row as row;
ghost use Rattle.rv64_instr.specs.Row.{row_of};
ghost use Rattle.sem_machine.specs.Machine.{Machine as State};
ghost use Rattle.sem_machine.specs.MachineStep.{left_by};
ghost use Rattle.sim_machine.specs.Departures.{is_leaving, left_at, way_target};
ghost use Rattle.sim_machine.specs.Kept.{StandsFor};
ghost use Rattle.sim_machine.specs.Shown.{entry_left};

use crate::hart::Hart;
use crate::site::{Places, find, instruction_at};
use emit_code::code::{Code, EncodedInstruction};
use rv64_instr::instr::Instr;
use rv64_instr::op::Op;
use rv64_instr::start::CallTarget;
use std::alloc::AllocError;

/// What control leaves the function for at the entry that begins at the program counter.
pub fn leaves_for(
    probable: &Places,
    code: &Code,
    hart: &Hart,
) -> Result<Option<CallTarget>, AllocError>
    ensures { IfOk result (λ o. (s : State) (ending : row.Ending row.Callee) → StandsFor hart.now s
        → left_at code.now hart.now.counter ≡ Some ending → o ≡ way_target s ending.way) }
{
    match find(probable, code, hart.counter) {
        Some(entry) => entry_leaves_for(code, &entry, hart),
        None => Ok(None),
    }
}

/// The same at an entry.
fn entry_leaves_for(
    code: &Code,
    entry: &EncodedInstruction,
    hart: &Hart,
) -> Result<Option<CallTarget>, AllocError>
    ensures { IfOk result (λ o. (s : State) (ending : row.Ending row.Callee) → StandsFor hart.now s
        → entry_left code.now.framed entry.now ≡ Some ending → o ≡ way_target s ending.way) }
{
    match instruction_at(&code.framed, &entry.point) {
        Some(i) => instruction_leaves_for(i, hart),
        None => Ok(None),
    }
}

/// The same at an instruction.
fn instruction_leaves_for(i: &Instr, hart: &Hart) -> Result<Option<CallTarget>, AllocError>
    ensures { IfOk result (λ o. (s : State) (ending : row.Ending row.Callee) → StandsFor hart.now s
        → left_by (row_of i.now) ≡ Some ending → o ≡ way_target s ending.way) }
{
    if is_leaving(i.op) {
        let target = hart.left_for(i)?;
        Ok(Some(target))
    } else {
        Ok(None)
    }
}

/// Whether an opcode is one of a call in tail position, or of one that doesn't return.
fn is_leaving(op: Op) -> bool
    ensures { result ≡ is_leaving op }
{
    matches!(
        op,
        Op::PseudoTail | Op::PseudoTailIndirect | Op::NoReturnCall | Op::NoReturnCallIndirect
    )
}
