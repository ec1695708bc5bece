//! Running a list of passes.

ghost use Rattle.std.specs.Prelude.{◌+◌, ◌*◌, ◌<◌, ◌^◌, IfOk, OnOk};
ghost use Rattle.mir_func.specs.Limits.{MAX_SLOTS};
ghost use Rattle.pass_trait.specs.Change.{change};
ghost use Rattle.pass_trait.specs.Simulation.{PreservesSimulation};
ghost use Rattle.pass_trait.specs.Sizes.{greatest, greatest_number, item_count, KeepsSizes};
ghost use Rattle.pass_trait.specs.Sizes.{most_numbers};
ghost use Rattle.pass_trait.specs.Steps.{KeepsSteps};
ghost use Rattle.pass_manager.specs.Passes.{steps_of_pass, asks, keeps, factor, count};
ghost use Rattle.pass_manager.specs.Passes.{passes_of, any_asks, all_keep, Fit, numbers_after, slots_after};
ghost use Rattle.pass_manager.specs.Passes.{KeepsGrowth};
ghost use Rattle.pass_manager.specs.Shown.{KeepsShown};
ghost use Rattle.pass_manager.specs.Told.{KeepsPasses};

use copyprop_pass::copies::CopyPass;
use dce_pass::dead::DeadPass;
use fold_pass::fold::FoldPass;
use fold_pass::pass_losses_crate::told::told;
use mir_func::func::Func;
use mir_substitution::substitutions::Substitutions;
use pass_list::kind::PassKind;
use pass_trait::loss::Losses;
use pass_trait::pass::Pass;
use remat_pass::remat::RematPass;
use rv64_instr::reg::{Reg, Registers};
use spill_pass::spill::SpillPass;
use std::alloc::{AllocError, Global};

/// Runs passes in order, and returns their loss reports, one after the other; each is in order and without duplicates.
/// The reserve has the registers that may be spilled. After an error the function and its substitutions may only be
/// dropped.
pub fn run_passes(
    alloc: Global,
    passes: &[PassKind],
    reserve: &[Reg],
    f: &mut Func,
    subs: &mut Substitutions,
) -> Result<Losses, AllocError>
    requires numbers { greatest_number f.old subs.old + numbers_after passes.now (item_count f.old) < 2 ^ 31 }
    requires slots { greatest f.old.slots + MAX_SLOTS * slots_after passes.now < 2 ^ 31 }
    ensures follows { OnOk result (Fit passes.now →
        PreservesSimulation (any_asks passes.now) (all_keep passes.now) (change f.old subs.old f.new subs.new)) }
    ensures told { IfOk result (KeepsPasses (passes_of reserve.now passes.now) (change f.old subs.old f.new subs.new)) }
    ensures growth { OnOk result (KeepsGrowth passes.now (change f.old subs.old f.new subs.new)) }
    ensures shown { OnOk result (KeepsShown f.old f.new) }
{
    match passes.split_first() {
        None => Ok(Losses::new(alloc)),
        Some((first, rest)) => {
            let mut losses = told(run_pass(alloc, *first, reserve, f, subs)?);
            let later = run_passes(alloc, rest, reserve, f, subs)?;
            losses.extend_from_slice(later.as_slice())?;
            Ok(losses)
        }
    }
}

/// Runs one pass, and returns its losses in the order in which its steps have them. After an error the function and its
/// substitutions may only be dropped.
fn run_pass(
    alloc: Global,
    pass: PassKind,
    reserve: &[Reg],
    f: &mut Func,
    subs: &mut Substitutions,
) -> Result<Losses, AllocError>
    requires numbers { greatest_number f.old subs.old + most_numbers (factor pass) (count pass) f.old < 2 ^ 31 }
    requires slots { greatest f.old.slots + MAX_SLOTS * count pass < 2 ^ 31 }
    ensures follows { OnOk result
        (PreservesSimulation (asks pass) (keeps pass) (change f.old subs.old f.new subs.new)) }
    ensures steps { IfOk result
        (KeepsSteps (steps_of_pass reserve.now pass) (change f.old subs.old f.new subs.new)) }
    ensures sizes { OnOk result (KeepsSizes (factor pass) (count pass) (change f.old subs.old f.new subs.new)) }
    ensures shown { OnOk result (KeepsShown f.old f.new) }
{
    match pass {
        PassKind::Copy => CopyPass.run(alloc, f, subs),
        PassKind::Remat => RematPass.run(alloc, f, subs),
        PassKind::Spill => {
            let reserve = Registers::from_slice(alloc, reserve)?;
            SpillPass { reserve }.run(alloc, f, subs)
        }
        PassKind::Dead => DeadPass.run(alloc, f, subs),
        PassKind::Fold => FoldPass.run(alloc, f, subs),
    }
}
