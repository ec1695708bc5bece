//! A round of dead code elimination with its debug items.

ghost use Rattle.std.specs.Prelude.{◌≡◌, ◌+◌, ◌<◌, ◌^◌, [], OnOk, IfOk};
ghost use Rattle.mir_func.specs.Sound.{IsSound};
ghost use Rattle.pass_trait.specs.Sizes.{greatest_number, item_count};
ghost use Rattle.dce_salvage_proof.specs.SalvageLaws.{all_off, function_off};
ghost use Rattle.dce_round.specs.Round.{IsRoundWith};

use base_list::List;
use dce_salvage_proof::dce_salvage_crate::salvage_blocks::{has_copies, salvage_blocks};
use dce_salvage_proof::pass_salvage_crate::fresh::fresh_number;
use dce_sweep::dce_analysis_crate::judge::judge;
use dce_sweep::pass_liveness_crate::live::Live;
use dce_sweep::round::{has_dead, sweep_dead};
use mir_func::block::{Blocks, copy_blocks};
use mir_func::func::Func;
use mir_substitution::substitutions::Substitutions;
use pass_losses::told::put_in_order;
use pass_trait::loss::{Loss, Losses};
use std::alloc::{AllocError, Global};

/// Removes the dead code of a function, once, and salvages the numbers of its copies. Returns the losses, in order, or
/// None if nothing is dead: then all is unchanged. After an error the function and the substitutions may only be
/// dropped.
pub fn dead_round(
    alloc: Global,
    f: &mut Func,
    subs: &mut Substitutions,
) -> Result<Option<Losses>, AllocError>
    requires { greatest_number f.old subs.old + item_count f.old + 1 < 2 ^ 31 }
    ensures round { IfOk result (IsRoundWith f.old subs.old f.new subs.new) }
    ensures sound { IsSound f.old }
{
    let _ = &f.blocks;
    let live = Live::solve(alloc, f)?;
    let dead = judge(alloc, f, &live)?;
    if !has_dead(dead.as_slice()) {
        return Ok(None);
    }
    let mut lost = copies_off(alloc, f, dead.as_slice(), subs)?;
    sweep_dead(alloc, f, &live, &mut lost)?;
    put_in_order(&mut lost);
    Ok(Some(List::from(lost)))
}

/// Removes the numbers from the dead copies of a function, if there are any, and returns the losses. After an error the
/// function is unchanged, and the substitutions may only be dropped.
fn copies_off(
    alloc: Global,
    f: &mut Func,
    dead: &[List<bool>],
    subs: &mut Substitutions,
) -> Result<Vec<Loss>, AllocError>
    requires { greatest_number f.old subs.old + item_count f.old + 1 < 2 ^ 31 }
    ensures function { OnOk result (f.new ≡ function_off f.old subs.old dead.now) }
    ensures entries { OnOk result (subs.new ≡ (all_off f.old subs.old dead.now).subs) }
    ensures lost { IfOk result (λ lost. lost.items ≡ (all_off f.old subs.old dead.now).lost) }
    ensures sound { IsSound f.old }
{
    let mut lost = Vec::new(alloc);
    if !has_copies(f.blocks.as_slice(), dead) {
        return Ok(lost);
    }
    let blocks = blocks_without_numbers(alloc, f, dead, subs, &mut lost)?;
    f.blocks = blocks;
    Ok(lost)
}

/// The blocks of a function whose dead copies have lost their numbers. Losses are appended to `lost`.
fn blocks_without_numbers(
    alloc: Global,
    f: &Func,
    dead: &[List<bool>],
    subs: &mut Substitutions,
    lost: &mut Vec<Loss>,
) -> Result<Blocks, AllocError>
    requires numbers { greatest_number f.now subs.old + item_count f.now + 1 < 2 ^ 31 }
    requires first { lost.old.items ≡ [] }
    ensures blocks { IfOk result (λ blocks. blocks ≡ (all_off f.now subs.old dead.now).blocks) }
    ensures entries { OnOk result (subs.new ≡ (all_off f.now subs.old dead.now).subs) }
    ensures lost { OnOk result (lost.new.items ≡ (all_off f.now subs.old dead.now).lost) }
{
    let mut fresh = fresh_number(f, subs);
    let mut blocks = copy_blocks(alloc, f.blocks.as_slice())?;
    salvage_blocks(alloc, &mut blocks.items, dead, subs, &mut fresh, lost)?;
    Ok(blocks)
}
