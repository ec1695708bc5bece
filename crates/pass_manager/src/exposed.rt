//! Running a list of passes on a function, by what it exposes to other code.

ghost use Rattle.std.specs.Prelude.{◌≡◌, ◌+◌, ◌*◌, ◌<◌, ◌^◌, [], ◌∷◌, map, filter, false, true, cond, IfOk, OnOk};
ghost use Rattle.std.specs.List.{list_any};
ghost use Rattle.global_registers.specs.Pass.{shared_step};
ghost use Rattle.mir_func.specs.Limits.{MAX_SLOTS};
ghost use Rattle.pass_trait.specs.Causes.{is_named};
ghost use Rattle.pass_trait.specs.Change.{change};
ghost use Rattle.pass_trait.specs.declared.loss.Reason.TheVariants.{CallNamed};
ghost use Rattle.pass_trait.specs.Rule.{register_lost};
ghost use Rattle.pass_trait.specs.Simulation.{PreservesSimulation};
ghost use Rattle.pass_trait.specs.Sizes.{greatest, greatest_number, item_count, KeepsSizes};
ghost use Rattle.pass_manager.specs.Exposed.{is_spill, unspilled, KeepsExposed};
ghost use Rattle.pass_manager.specs.Passes.{any_asks, all_keep, Fit, numbers_after, slots_after, KeepsGrowth};
ghost use Rattle.pass_manager.specs.Shown.{KeepsShown};
ghost use Rattle.pass_manager.specs.Told.{KeepsPass};

use crate::run::run_passes;
use fold_pass::pass_losses_crate::told::told;
use global_registers::pass::GlobalRegisterPass;
use mir_exposure::exposure::Exposure;
use mir_func::func::Func;
use mir_substitution::substitutions::Substitutions;
use pass_list::kind::PassKind;
use pass_trait::loss::{Loss, Losses, Lost, Reason};
use pass_trait::pass::Pass;
use rv64_instr::reg::Reg;
use spill_pass::reserve::reserve_of;
use spill_pass::spill_rule_crate::named::is_named;
use std::alloc::{AllocError, Global};

/// Runs passes in order, and returns their loss reports, as `run_passes` does. While they run, calls and ends read the
/// global registers of a function that exposes these. A function that exposes everything is left as it is, and so are
/// the registers of the reserve that it names, if they were to be spilled.
pub fn run_exposed(
    alloc: Global,
    exposure: Exposure,
    passes: &[PassKind],
    reserve: &[Reg],
    f: &mut Func,
    subs: &mut Substitutions,
) -> Result<Losses, AllocError>
    requires numbers { greatest_number f.old subs.old + numbers_after passes.now (item_count f.old) < 2 ^ 31 }
    requires slots { greatest f.old.slots + MAX_SLOTS * slots_after passes.now < 2 ^ 31 }
    ensures follows { OnOk result (Fit passes.now →
        PreservesSimulation (any_asks passes.now) (all_keep passes.now) (change f.old subs.old f.new subs.new)) }
    ensures told { IfOk result (KeepsExposed reserve.now passes.now exposure (change f.old subs.old f.new subs.new)) }
    ensures growth { OnOk result (KeepsGrowth passes.now (change f.old subs.old f.new subs.new)) }
    ensures shown { OnOk result (KeepsShown f.old f.new) }
{
    match exposure {
        Exposure::Nothing => run_passes(alloc, passes, reserve, f, subs),
        Exposure::Globals => run_sharing(alloc, passes, reserve, f, subs),
        Exposure::Everything => left(alloc, passes, reserve, f),
    }
}

/// Runs passes while calls and ends read the global registers.
fn run_sharing(
    alloc: Global,
    passes: &[PassKind],
    reserve: &[Reg],
    f: &mut Func,
    subs: &mut Substitutions,
) -> Result<Losses, AllocError>
    requires numbers { greatest_number f.old subs.old + numbers_after passes.now (item_count f.old) < 2 ^ 31 }
    requires slots { greatest f.old.slots + MAX_SLOTS * slots_after passes.now < 2 ^ 31 }
    ensures follows { OnOk result (Fit passes.now →
        PreservesSimulation (any_asks passes.now) (all_keep passes.now) (change f.old subs.old f.new subs.new)) }
    ensures told { IfOk result
        (KeepsExposed reserve.now passes.now Exposure.Globals (change f.old subs.old f.new subs.new)) }
    ensures growth { OnOk result (KeepsGrowth passes.now (change f.old subs.old f.new subs.new)) }
    ensures shown { OnOk result (KeepsShown f.old f.new) }
{
    let mut losses = share(alloc, true, f, subs)?;
    let later = run_passes(alloc, passes, reserve, f, subs)?;
    losses.extend_from_slice(later.as_slice())?;
    let last = share(alloc, false, f, subs)?;
    losses.extend_from_slice(last.as_slice())?;
    Ok(losses)
}

/// Makes calls and ends read the global registers, or no longer read them.
fn share(
    alloc: Global,
    shares: bool,
    f: &mut Func,
    subs: &mut Substitutions,
) -> Result<Losses, AllocError>
    requires numbers { greatest_number f.old subs.old < 2 ^ 31 }
    requires slots { greatest f.old.slots < 2 ^ 31 }
    ensures follows { OnOk result (PreservesSimulation false true (change f.old subs.old f.new subs.new)) }
    ensures told { IfOk result (KeepsPass (shared_step shares ∷ []) (change f.old subs.old f.new subs.new)) }
    ensures sizes { OnOk result (KeepsSizes 1 0 (change f.old subs.old f.new subs.new)) }
    ensures shown { OnOk result (KeepsShown f.old f.new) }
{
    let lost = GlobalRegisterPass { shares }.run(alloc, f, subs)?;
    Ok(told(lost))
}

/// The losses of a function that is left as it is.
fn left(alloc: Global, passes: &[PassKind], reserve: &[Reg], f: &Func) -> Result<Losses, AllocError>
    ensures { IfOk result (λ losses. losses ≡ cond (list_any is_spill passes.now) (unspilled reserve.now f.now) []) }
{
    if has_spill(passes) {
        unspilled(alloc, reserve, f)
    } else {
        Ok(Losses::new(alloc))
    }
}

fn has_spill(passes: &[PassKind]) -> bool
    ensures { result ≡ list_any is_spill passes.now }
{
    passes.iter().any(|pass| is_spill(*pass))
}

fn is_spill(pass: PassKind) -> bool
    ensures { result ≡ is_spill pass }
{
    matches!(pass, PassKind::Spill)
}

/// The losses of registers of a reserve, in order, each of which code names and stays unspilled.
fn unspilled(alloc: Global, reserve: &[Reg], f: &Func) -> Result<Losses, AllocError>
    ensures { IfOk result (λ losses. losses ≡ unspilled reserve.now f.now) }
{
    let mut registers = reserve_of(alloc, reserve)?;
    keep_named(f, &mut registers.items);
    call_named(alloc, registers.as_slice())
}

fn keep_named(f: &Func, registers: &mut Vec<Reg>)
    ensures { registers.new.items ≡ filter (is_named f.now) registers.old.items }
{
    registers.retain(|r| is_named(f, *r));
}

fn call_named(alloc: Global, registers: &[Reg]) -> Result<Losses, AllocError>
    ensures { IfOk result (λ losses. losses ≡ map (λ r. register_lost r CallNamed) registers.now) }
{
    let mut losses = Losses::new(alloc);
    for r in registers {
        losses.push(Loss {
            what: Lost::Register(*r),
            reason: Reason::CallNamed,
        })?;
    }
    Ok(losses)
}
