//! The step in which virtual registers get slots.

ghost use Rattle.std.specs.Prelude.{◌≡◌, ◌+◌, ◌<◌, ◌^◌, [], IfOk};
ghost use Rattle.mir_func.specs.Limits.{MAX_SLOTS};
ghost use Rattle.mir_func.specs.Sound.{AllItems, HasForm, IsSound};
ghost use Rattle.pass_trait.specs.Sizes.{greatest, greatest_number, item_count};
ghost use Rattle.spill_code.specs.Rewrite.{spilled_blocks};
ghost use Rattle.spill_code.specs.Room.{HaveRoom};
ghost use Rattle.spill_pass.specs.spill_debug.RewrittenDebugItems.{number_beyond, blocks_asked};
ghost use Rattle.scan_slots.specs.Rule.{AreLeft};
ghost use Rattle.scan_settle.specs.Settled.{IsSettledWithLosses};

use crate::choice::settling_of;
use mir_func::block::{Block, Blocks};
use mir_func::func::Func;
use mir_substitution::substitutions::Substitutions;
use pass_trait::loss::Losses;
use scan_slots::scan_intervals_crate::interval::LiveInterval;
use spill_code::rewrite::spilled_blocks;
use spill_code::spilling::{SlotAssignments, Spilling};
use spill_pass::mir_type_facts_crate::blocks::{know_forms, know_silent};
use spill_pass::pass_salvage_crate::fresh::fresh_number;
use spill_pass::plan::slots_with;
use spill_pass::spill_debug_crate::lost::scratch_losses;
use spill_pass::spill_debug_crate::marks::blocks_asked;
use std::alloc::{AllocError, Global};

/// Moves the registers of these intervals into slots, and returns the losses. After an error the function is unchanged.
pub fn settle(
    alloc: Global,
    intervals: &[LiveInterval],
    f: &mut Func,
    subs: &Substitutions,
) -> Result<Losses, AllocError>
    requires left { AreLeft f.old intervals.now }
    requires numbers { greatest_number f.old subs.now + item_count f.old + 1 < 2 ^ 31 }
    requires slots { greatest f.old.slots + MAX_SLOTS < 2 ^ 31 }
    ensures settled { IfOk result (λ losses. IsSettledWithLosses intervals.now f.old subs.now f.new losses) }
    ensures forms { AllItems (λ i. HasForm i.kind) f.old.blocks }
    ensures sound { IsSound f.old }
{
    know_forms(f.blocks.as_slice());
    know_silent(f.blocks.as_slice());
    let settling = settling_of(alloc, intervals, f)?;
    if settling.homes.is_empty() {
        return Ok(Losses::new(alloc));
    }
    let losses = scratch_losses(alloc, &settling, f.blocks.as_slice())?;
    let fresh = fresh_number(f, subs);
    let blocks = blocks_in_slots(alloc, &settling, fresh, f.blocks.as_slice())?;
    let slots = slots_with(alloc, f.slots.as_slice(), settling.homes.as_slice())?;
    f.slots = slots;
    f.blocks = blocks;
    Ok(losses)
}

/// The blocks with these registers in slots, in which debug values of them refer to DBG_PHIs with fresh numbers. No register
/// is stored at the function's start.
fn blocks_in_slots(
    alloc: Global,
    settling: &Spilling,
    fresh: u32,
    blocks: &[Block],
) -> Result<Blocks, AllocError>
    requires fresh { number_beyond settling.now.homes fresh blocks.now < 2 ^ 32 }
    requires room { HaveRoom settling.now (blocks_asked settling.now fresh blocks.now) }
    ensures { IfOk result (λ made.
        made ≡ spilled_blocks settling.now [] (blocks_asked settling.now fresh blocks.now)) }
{
    let entry = SlotAssignments::new(alloc);
    let asked = blocks_asked(alloc, settling, fresh, blocks)?;
    spilled_blocks(alloc, settling, entry.as_slice(), asked.as_slice())
}
