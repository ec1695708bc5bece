//! The copy propagation pass.

ghost use Rattle.std.specs.Prelude.{◌≡◌, ◌+◌, ◌<◌, ◌^◌, [], ◌∷◌, false, true, OnOk};
ghost use Rattle.mir_func.specs.Sound.{IsSound};
ghost use Rattle.pass_trait.specs.Sizes.{greatest_number, item_count};
ghost use Rattle.copyprop_proof.specs.copyprop_rule.Rule.{salvaged_function, salvaged_entries};
ghost use Rattle.copyprop_proof.specs.copyprop_rule.Laws.{one_copied, same_copied};
ghost use Rattle.copyprop_proof.specs.Rule.{copy_step};
ghost use Rattle.std.proofs.Common.{rules};

use copyprop_proof::copyprop_rule_crate::function::blocks_without_copies;
use mir_func::func::Func;
use mir_substitution::substitutions::Substitutions;
use pass_trait::loss::Losses;
use pass_trait::pass::Pass;
use std::alloc::{AllocError, Global};

/// Removes redundant copies, and reads roots in place of copies (LLVM: machine copy propagation). Nothing is lost: a
/// number is substituted by the code that defined the copied value, or is on a DBG_PHI.
#[derive(Drop)]
pub struct CopyPass;

impl Pass for CopyPass {
    ghost asks = { false };

    ghost keeps = { true };

    ghost fits = { true };

    ghost factor = { 1 };

    ghost count = { 1 };

    ghost steps = { λ s. copy_step ∷ [] };

    fn run(
        &mut self,
        alloc: Global,
        f: &mut Func,
        subs: &mut Substitutions,
    ) -> Result<Losses, AllocError> {
        take_copies_out(alloc, f, subs)?;
        Ok(Losses::new(alloc))
    }

    ghost one_code = { λ s. (one_copied, tt) };

    ghost same_code = { λ s. (same_copied, tt) };

    ghost grows = { Prim.search rules };
}

/// What the pass states of itself: it needs no matched block ends and keeps them, and its bounds on sizes.
pub fn copy_pass_keeps_block_ends()
    ensures asks { ⟦<CopyPass as Pass>⟧.asks ≡ false }
    ensures keeps { ⟦<CopyPass as Pass>⟧.keeps ≡ true }
    ensures fits { ⟦<CopyPass as Pass>⟧.fits ≡ true }
    ensures factor { ⟦<CopyPass as Pass>⟧.factor ≡ 1 }
    ensures count { ⟦<CopyPass as Pass>⟧.count ≡ 1 }
{}

/// Removes the redundant copies of a function, and salvages their numbers. After an error the function is unchanged,
/// and the substitutions may only be dropped.
fn take_copies_out(alloc: Global, f: &mut Func, subs: &mut Substitutions) -> Result<(), AllocError>
    requires { greatest_number f.old subs.old + item_count f.old + 1 < 2 ^ 31 }
    ensures function { OnOk result (f.new ≡ salvaged_function f.old subs.old) }
    ensures entries { OnOk result (subs.new ≡ salvaged_entries f.old subs.old) }
    ensures sound { IsSound f.old }
{
    let blocks = blocks_without_copies(alloc, f, subs)?;
    f.blocks = blocks;
    Ok(())
}
