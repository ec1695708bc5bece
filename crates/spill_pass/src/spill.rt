//! The spilling pass.

ghost use Rattle.std.specs.Prelude.{◌≡◌, ◌+◌, ◌<◌, ◌^◌, [], ◌∷◌, false, true, IfOk};
ghost use Rattle.mir_func.specs.Limits.{MAX_SLOTS};
ghost use Rattle.mir_func.specs.Sound.{AllItems, IsSound, HasForm};
ghost use Rattle.spill_proof.specs.pass_trait.Sizes.{greatest, greatest_number, item_count};
ghost use Rattle.spill_proof.specs.spill_rule.Laws.{one_spilled, same_spilled};
ghost use Rattle.spill_proof.specs.Step.{spill_step};
ghost use Rattle.spill_proof.specs.Kept.{IsReserve, IsSpilledWithLosses};
ghost use Rattle.spill_pass.specs.Reserve.{reserve_of};
ghost use Rattle.std.proofs.Common.{rules};

use crate::plan::{blocks_in_slots, losses_of, plan_for, slots_with};
use crate::reserve::reserve_of;
use mir_func::func::Func;
use mir_type_facts::blocks::{know_forms, know_silent};
use rv64_instr::reg::{Reg, Registers};
use spill_proof::kept_laws::{spilled_keeps_following, spilled_keeps_sizes, spilled_keeps_steps};
use spill_proof::mir_substitution_crate::substitutions::Substitutions;
use spill_proof::pass_salvage_crate::fresh::fresh_number;
use spill_proof::pass_trait_crate::loss::Losses;
use spill_proof::pass_trait_crate::pass::Pass;
use std::alloc::{AllocError, Global};

/// Spills registers of a reserve (LLVM: spilling), as many as there are slots for. The reserve has those of the given
/// registers that may be spilled: x8, x9 and x18 to x27. The losses are the debug values and DBG_PHIs of the two
/// scratch registers, and each register of the reserve that code names and that isn't spilled, with the reason.
#[derive(Drop)]
pub struct SpillPass {
    /// The registers to be spilled, in any order.
    pub reserve: Registers,
}

impl Pass for SpillPass {
    ghost asks = { false };

    ghost keeps = { true };

    ghost fits = { true };

    ghost factor = { 4 };

    ghost count = { 1 };

    ghost steps = { λ s. spill_step (reserve_of s.reserve) ∷ [] };

    fn run(
        &mut self,
        alloc: Global,
        f: &mut Func,
        subs: &mut Substitutions,
    ) -> Result<Losses, AllocError> {
        spilled_keeps_following();
        spilled_keeps_steps();
        spilled_keeps_sizes();
        let reserve = reserve_of(alloc, self.reserve.as_slice())?;
        spill(alloc, reserve.as_slice(), f, subs)
    }

    ghost one_code = { λ s. (one_spilled (reserve_of s.reserve), tt) };

    ghost same_code = { λ s. (same_spilled (reserve_of s.reserve), tt) };

    ghost grows = { Prim.search rules };
}

/// What the pass states of itself: it needs no matched block ends and keeps them, and its bounds on sizes.
pub fn spill_pass_keeps_block_ends()
    ensures asks { ⟦<SpillPass as Pass>⟧.asks ≡ false }
    ensures keeps { ⟦<SpillPass as Pass>⟧.keeps ≡ true }
    ensures fits { ⟦<SpillPass as Pass>⟧.fits ≡ true }
    ensures factor { ⟦<SpillPass as Pass>⟧.factor ≡ 4 }
    ensures count { ⟦<SpillPass as Pass>⟧.count ≡ 1 }
{}

/// Spills registers of a reserve, and returns the losses. After an error the function is unchanged.
pub fn spill(
    alloc: Global,
    reserve: &[Reg],
    f: &mut Func,
    subs: &Substitutions,
) -> Result<Losses, AllocError>
    requires reserve { IsReserve reserve.now }
    requires numbers { greatest_number f.old subs.now + item_count f.old + 1 < 2 ^ 31 }
    requires slots { greatest f.old.slots + MAX_SLOTS < 2 ^ 31 }
    ensures spilled { IfOk result (λ losses. IsSpilledWithLosses reserve.now f.old subs.now f.new losses) }
    ensures forms { AllItems (λ i. HasForm i.kind) f.old.blocks }
    ensures sound { IsSound f.old }
{
    know_forms(f.blocks.as_slice());
    know_silent(f.blocks.as_slice());
    let plan = plan_for(alloc, reserve, f)?;
    if plan.spilling.homes.is_empty() {
        return Ok(plan.left);
    }
    let losses = losses_of(alloc, &plan, f.blocks.as_slice())?;
    let fresh = fresh_number(f, subs);
    let blocks = blocks_in_slots(alloc, &plan, fresh, f.blocks.as_slice())?;
    let slots = slots_with(alloc, f.slots.as_slice(), plan.spilling.homes.as_slice())?;
    f.slots = slots;
    f.blocks = blocks;
    Ok(losses)
}
