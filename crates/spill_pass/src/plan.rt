//! The plan of spilling, and the parts of a function after it.

ghost use Rattle.std.specs.Prelude.{◌≡◌, ◌++◌, ◌+◌, ◌<◌, ◌^◌, map, IfOk};
ghost use Rattle.mir_func.specs.Limits.{MAX_SLOTS};
ghost use Rattle.spill_proof.specs.pass_trait.Sizes.{greatest};
ghost use Rattle.spill_code.specs.Rewrite.{spilled_blocks};
ghost use Rattle.spill_code.specs.Room.{HaveRoom};
ghost use Rattle.spill_proof.specs.spill_debug.RewrittenDebugItems.{number_beyond, blocks_asked};
ghost use Rattle.spill_proof.specs.spill_rule.Choice.{entry_of};
ghost use Rattle.spill_proof.specs.spill_select.Incoming.{is_among};
ghost use Rattle.spill_pass.specs.Plan.{IsPlan, AreAllLosses};

use base_ids::function_ids::SlotId;
use mir_func::block::{Block, Blocks};
use mir_func::func::{Func, SlotIds};
use rv64_instr::reg::{Reg, Registers};
use spill_code::rewrite::spilled_blocks;
use spill_code::spilling::{SlotAssignment, Spilling};
use spill_proof::pass_trait_crate::loss::Losses;
use spill_proof::spill_debug_crate::lost::scratch_losses;
use spill_proof::spill_debug_crate::marks::blocks_asked;
use spill_proof::spill_select_crate::choice::{choose, entry_of};
use spill_proof::spill_select_crate::incoming::incoming;
use spill_proof::spill_select_crate::left::registers_left;
use std::alloc::{AllocError, Global};

/// The plan of spilling a function.
#[derive(Drop)]
pub struct SpillPlan {
    /// The registers of the reserve that are live into the function.
    pub incoming: Registers,
    /// The scratch registers, and the slots of spilled registers.
    pub spilling: Spilling,
    /// The registers of the reserve that code names and that aren't spilled, each with the reason.
    pub left: Losses,
}

/// Plans the spilling of a function from a reserve.
pub fn plan_for(alloc: Global, reserve: &[Reg], f: &Func) -> Result<SpillPlan, AllocError>
    requires { greatest f.now.slots + MAX_SLOTS < 2 ^ 31 }
    ensures { IfOk result (IsPlan reserve.now f.now) }
{
    let incoming = incoming(alloc, reserve, f)?;
    let spilling = choose(alloc, reserve, incoming.as_slice(), f)?;
    let homes = spilling.homes.as_slice();
    let left = registers_left(alloc, reserve, incoming.as_slice(), homes, f)?;
    Ok(SpillPlan {
        incoming,
        spilling,
        left,
    })
}

/// The losses of the blocks and the registers that aren't spilled: first the losses to scratch registers, in order.
pub fn losses_of(alloc: Global, plan: &SpillPlan, blocks: &[Block]) -> Result<Losses, AllocError>
    ensures { IfOk result (AreAllLosses plan.now.spilling blocks.now plan.now.left) }
{
    let mut losses = scratch_losses(alloc, &plan.spilling, blocks)?;
    losses.extend_from_slice(plan.left.as_slice())?;
    Ok(losses)
}

/// The blocks with registers spilled, in which debug values of spilled registers refer to DBG_PHIs with fresh numbers.
pub fn blocks_in_slots(
    alloc: Global,
    plan: &SpillPlan,
    fresh: u32,
    blocks: &[Block],
) -> Result<Blocks, AllocError>
    requires fresh { number_beyond plan.now.spilling.homes fresh blocks.now < 2 ^ 32 }
    requires room { HaveRoom plan.now.spilling (blocks_asked plan.now.spilling fresh blocks.now) }
    ensures { IfOk result (λ made.
        made ≡ spilled_blocks plan.now.spilling (entry_of (is_among plan.now.incoming) plan.now.spilling.homes)
        (blocks_asked plan.now.spilling fresh blocks.now)) }
{
    let entry = entry_of(
        alloc,
        plan.incoming.as_slice(),
        plan.spilling.homes.as_slice(),
    )?;
    let asked = blocks_asked(alloc, &plan.spilling, fresh, blocks)?;
    spilled_blocks(alloc, &plan.spilling, entry.as_slice(), asked.as_slice())
}

/// The slots, and then those of the spilled registers.
pub fn slots_with(
    alloc: Global,
    slots: &[SlotId],
    homes: &[SlotAssignment],
) -> Result<SlotIds, AllocError>
    ensures { IfOk result (λ made. made ≡ slots.now ++ map (λ h. h.slot) homes.now) }
{
    let mut made = SlotIds::from_slice(alloc, slots)?;
    for h in homes {
        made.push(h.slot)?;
    }
    Ok(made)
}
