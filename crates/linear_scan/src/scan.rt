//! The pass.

ghost use Rattle.std.specs.Prelude.{◌≡◌, ◌+◌, ◌<◌, ◌^◌, false, true, IfOk};
ghost use Rattle.mir_func.specs.Limits.{MAX_SLOTS};
ghost use Rattle.mir_func.specs.Sound.{AllItems, HasForm, IsSound};
ghost use Rattle.pass_trait.specs.Sizes.{greatest, greatest_number, item_count};
ghost use Rattle.scan_pass.specs.Scanned.{scan_steps, IsScanned};
ghost use Rattle.scan_settle.specs.Settled.{IsSettledWithLosses};
ghost use Rattle.scan_settle.specs.Rule.{AreLeft};
ghost use Rattle.scan_pass.proofs.CodeAlone.{scan_is_one, scan_sees_code_alone};
ghost use Rattle.std.proofs.Common.{rules};

use crate::allot::allot;
use frame_lowering::physical::is_physical;
use mir_func::func::Func;
use mir_substitution::substitutions::Substitutions;
use pass_trait::loss::Losses;
use pass_trait::pass::Pass;
use rv64_instr::reg::{Reg, Registers};
use scan_allot::laws::allotted_keeps_sizes;
use scan_allot::scan_liveness_crate::liveness::liveness_of;
use scan_allot::scan_liveness_crate::registers::greatest_register;
use scan_pass::laws::{scanned_follows, scanned_keeps_sizes, scanned_keeps_steps};
use scan_pass::scan_intervals_crate::interval::LiveIntervals;
use scan_settle::mir_type_facts_crate::blocks::know_forms;
use scan_settle::settle::settle;
use std::alloc::{AllocError, Global};

/// Replaces virtual registers by physical registers and slots (LLVM: register allocation). The losses are the debug values
/// and DBG_PHIs that become undef as registers are replaced, and, if some register gets a slot, those of the two scratch
/// registers. Where it leaves a virtual register, the function can't be lowered.
#[derive(Drop)]
pub struct ScanPass {
    /// The physical registers that aren't given.
    pub reserve: Registers,
}

impl Pass for ScanPass {
    ghost asks = { false };

    ghost keeps = { true };

    ghost fits = { true };

    ghost factor = { 4 };

    ghost count = { 1 };

    ghost steps = { λ s. scan_steps s.reserve };

    fn run(
        &mut self,
        alloc: Global,
        f: &mut Func,
        subs: &mut Substitutions,
    ) -> Result<Losses, AllocError> {
        scanned_follows();
        scanned_keeps_steps();
        scanned_keeps_sizes();
        scan(alloc, self.reserve.as_slice(), f, subs)
    }

    ghost one_code = { λ s. scan_is_one s.reserve };

    ghost same_code = { λ s. scan_sees_code_alone s.reserve };

    ghost grows = { Prim.search rules };
}

/// What the pass states of itself: it needs no matched block ends and keeps them, and its bounds on sizes.
pub fn scan_pass_keeps_block_ends()
    ensures asks { ⟦<ScanPass as Pass>⟧.asks ≡ false }
    ensures keeps { ⟦<ScanPass as Pass>⟧.keeps ≡ true }
    ensures fits { ⟦<ScanPass as Pass>⟧.fits ≡ true }
    ensures factor { ⟦<ScanPass as Pass>⟧.factor ≡ 4 }
    ensures count { ⟦<ScanPass as Pass>⟧.count ≡ 1 }
{}

/// Allocates registers, and returns the losses. A function without virtual registers is unchanged. After an error the
/// function may only be dropped.
pub fn scan(
    alloc: Global,
    reserve: &[Reg],
    f: &mut Func,
    subs: &Substitutions,
) -> Result<Losses, AllocError>
    requires numbers { greatest_number f.old subs.now + item_count f.old + 1 < 2 ^ 31 }
    requires slots { greatest f.old.slots + MAX_SLOTS < 2 ^ 31 }
    ensures scanned { IfOk result (λ losses. IsScanned reserve.now f.old subs.now f.new losses) }
    ensures forms { AllItems (λ i. HasForm i.kind) f.old.blocks }
    ensures sound { IsSound f.old }
{
    know_forms(f.blocks.as_slice());
    if is_physical(f) {
        return Ok(Losses::new(alloc));
    }
    allocate(alloc, reserve, f, subs)
}

/// The same of any function.
fn allocate(
    alloc: Global,
    reserve: &[Reg],
    f: &mut Func,
    subs: &Substitutions,
) -> Result<Losses, AllocError>
    requires numbers { greatest_number f.old subs.now + item_count f.old + 1 < 2 ^ 31 }
    requires slots { greatest f.old.slots + MAX_SLOTS < 2 ^ 31 }
    ensures { IfOk result (λ losses. IsScanned reserve.now f.old subs.now f.new losses) }
{
    allotted_keeps_sizes();
    let mut losses = allot(alloc, reserve, f)?;
    let intervals = intervals_left(alloc, f)?;
    let scratch = settle_left(alloc, &intervals, f, subs)?;
    losses.extend_from_slice(scratch.as_slice())?;
    Ok(losses)
}

/// The live intervals of the virtual registers of a function, in the order of allocation. The error is out of memory.
fn intervals_left(alloc: Global, f: &Func) -> Result<LiveIntervals, AllocError>
    requires { item_count f.now < 2 ^ 31 }
    ensures { IfOk result (AreLeft f.now) }
{
    know_forms(f.blocks.as_slice());
    let most = greatest_register(f.blocks.as_slice());
    if most < 32 {
        return Ok(LiveIntervals::new(alloc));
    }
    let liveness = liveness_of(alloc, f)?;
    Ok(liveness.intervals)
}

/// Moves the registers of these intervals into slots, if there are any, and returns the losses. After an error the
/// function is unchanged.
fn settle_left(
    alloc: Global,
    intervals: &LiveIntervals,
    f: &mut Func,
    subs: &Substitutions,
) -> Result<Losses, AllocError>
    requires left { AreLeft f.old intervals.now }
    requires numbers { greatest_number f.old subs.now + item_count f.old + 1 < 2 ^ 31 }
    requires slots { greatest f.old.slots + MAX_SLOTS < 2 ^ 31 }
    ensures { IfOk result (λ losses. IsSettledWithLosses intervals.now f.old subs.now f.new losses) }
{
    if intervals.is_empty() {
        return Ok(Losses::new(alloc));
    }
    settle(alloc, intervals.as_slice(), f, subs)
}
