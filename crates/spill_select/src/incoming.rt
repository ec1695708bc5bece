//! Registers that are live into a function.

ghost use Rattle.std.specs.Prelude.{◌≡◌, filter, IfOk};
ghost use Rattle.pass_liveness.specs.rv64_instr.declared.place.Place.TheVariants.{Register};
ghost use Rattle.pass_liveness.specs.Sets.{has};
ghost use Rattle.spill_rule.specs.Rule.{Decides};
ghost use Rattle.spill_select.specs.Incoming.{is_among};

use pass_liveness::live::Live;
use pass_liveness::mir_func_crate::func::Func;
use pass_liveness::rv64_instr_crate::place::Place;
use pass_liveness::rv64_instr_crate::reg::{Reg, Registers};
use pass_liveness::set::PlaceSet;
use std::alloc::{AllocError, Global};

/// The registers of a reserve that are live into a function's first block, in the order of the reserve.
pub fn incoming(alloc: Global, reserve: &[Reg], f: &Func) -> Result<Registers, AllocError>
    ensures { IfOk result (λ registers. Decides reserve.now f.now (is_among registers)) }
{
    let live = Live::solve(alloc, f)?;
    let _ = &f.blocks;
    let set = live.at_start(0);
    live_of(alloc, &live, &set, reserve)
}

/// The registers of a reserve that are in a set.
fn live_of(
    alloc: Global,
    live: &Live,
    set: &PlaceSet,
    reserve: &[Reg],
) -> Result<Registers, AllocError>
    ensures { IfOk result (λ registers.
        registers ≡ filter (λ r. has live.now.slots set.now (Register r)) reserve.now) }
{
    let mut registers = Registers::from_slice(alloc, reserve)?;
    keep_live(live, set, &mut registers.items);
    Ok(registers)
}

fn keep_live(live: &Live, set: &PlaceSet, registers: &mut Vec<Reg>)
    ensures { registers.new.items ≡ filter (λ r. has live.now.slots set.now (Register r)) registers.old.items }
{
    registers.retain(|r| live.contains(set, Place::Register(*r)));
}
