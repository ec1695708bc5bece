//! The last values of operands under debug instruction numbers.

ghost use Rattle.std.specs.Prelude.{◌≤◌, true, Some, IsOk, length};
ghost use Rattle.indexmap.specs.IndexMap.{spare};
ghost use Rattle.sem_mir.specs.State.{Core};
ghost use Rattle.sem_mir.specs.Step.{numbered};
ghost use Rattle.sem_interpreter.specs.Places.{RegistersHold};
ghost use Rattle.sem_interpreter.specs.StandsFor.{PairsHold};

use crate::registers::Registers;
use base_ids::function_ids::DebugNumber;
use indexmap::IndexMap;
use rv64_instr::operand::Operand;
use sem_mir::operand::defined;
use std::alloc::AllocError;

/// The last value of each pair of a debug instruction number and an operand's index.
pub type Pairs = IndexMap<(u32, usize), Option<u64>>;

/// Sets the pair of each defining operand of code with a number to its register's content. It takes no memory if
/// there is room for a pair of each operand.
pub fn number(
    pairs: &mut Pairs,
    registers: &Registers,
    call: bool,
    k: DebugNumber,
    operands: &[Operand],
) -> Result<(), AllocError>
    requires { length operands.now ≤ spare pairs.old }
    ensures done { IsOk result }
    ensures given { (s : Core) → RegistersHold registers.now s.regs → PairsHold pairs.old.entries s.pairs
        → PairsHold pairs.new.entries (numbered true call (Some k) operands.now s).pairs }
{
    for (o, operand) in operands.iter().enumerate() {
        if let Some(r) = defined(call, operand) {
            pairs.insert((k.number(), o), registers.read(r))?;
        }
    }
    Ok(())
}
