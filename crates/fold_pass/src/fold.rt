//! The branch folding pass.

ghost use Rattle.std.specs.Prelude.{◌≡◌, [], ◌∷◌, IfOk, OnOk, true, false};
ghost use Rattle.mir_func.specs.Sound.{AreApart, ids_of, AllItems, IsSound, HasForm};
ghost use Rattle.fold_proof.specs.Debug.{fold_step};
ghost use Rattle.fold_pass.specs.Folded.{AreFoldedWithLosses};
ghost use Rattle.fold_pass.specs.Laws.{folding_has_one_result, folding_sees_code_alone};
ghost use Rattle.std.proofs.Common.{rules};

use crate::lost::fold_losses;
use fold_proof::debug_laws::folded_keeps_items;
use fold_proof::follow_laws::{folded_follows, kills_strip};
use fold_proof::size_laws::folded_keeps_sizes;
use fold_rule::fold::fold_blocks;
use fold_undef::bypassed::jump_chains;
use fold_undef::put::put_kills;
use mir_func::block::{Block, copy_blocks};
use mir_func::func::Func;
use mir_substitution::substitutions::Substitutions;
use mir_type_facts::blocks::know_forms;
use pass_trait::loss::Losses;
use pass_trait::pass::Pass;
use std::alloc::{AllocError, Global};

/// Folds branches (see `fold_rule`). The losses are the debug values and DBG_PHIs of bypassed blocks, and all debug
/// values and numbers of unreachable blocks. It requires matched block ends, and doesn't keep them.
#[derive(Drop)]
pub struct FoldPass;

impl Pass for FoldPass {
    ghost asks = { true };

    ghost keeps = { false };

    ghost fits = { true };

    ghost factor = { 1 };

    ghost count = { 1 };

    ghost steps = { λ s. fold_step ∷ [] };

    fn run(
        &mut self,
        alloc: Global,
        f: &mut Func,
        _subs: &mut Substitutions,
    ) -> Result<Losses, AllocError> {
        folded_follows();
        kills_strip();
        folded_keeps_items();
        folded_keeps_sizes();
        fold(alloc, f)
    }

    ghost one_code = { λ s. (folding_has_one_result, tt) };

    ghost same_code = { λ s. (folding_sees_code_alone, tt) };

    ghost grows = { Prim.search rules };
}

/// What the pass states of itself: it needs matched block ends and doesn't keep them, and its bounds on sizes.
pub fn fold_pass_needs_matched_block_ends()
    ensures asks { ⟦<FoldPass as Pass>⟧.asks ≡ true }
    ensures keeps { ⟦<FoldPass as Pass>⟧.keeps ≡ false }
    ensures fits { ⟦<FoldPass as Pass>⟧.fits ≡ true }
    ensures factor { ⟦<FoldPass as Pass>⟧.factor ≡ 1 }
    ensures count { ⟦<FoldPass as Pass>⟧.count ≡ 1 }
{}

/// Folds a function, and returns the losses. After an error the function is unchanged.
pub fn fold(alloc: Global, f: &mut Func) -> Result<Losses, AllocError>
    ensures folded { IfOk result (λ losses. AreFoldedWithLosses f.old.blocks f.new.blocks losses) }
    ensures same { OnOk result (f.new ≡ record f.old { blocks = f.new.blocks }) }
    ensures forms { OnOk result (AllItems (λ i. HasForm i.kind) f.old.blocks) }
    ensures sound { IsSound f.old }
{
    let mut blocks = copy_blocks(alloc, f.blocks.as_slice())?.into_vec();
    let losses = fold_copy(alloc, f.blocks.as_slice(), &mut blocks)?;
    f.blocks.items = blocks;
    Ok(losses)
}

/// Folds a copy of blocks, inserts their kills, and returns the losses.
fn fold_copy(alloc: Global, before: &[Block], after: &mut Vec<Block>) -> Result<Losses, AllocError>
    requires apart { AreApart (ids_of before.now) }
    requires copied { after.old.items ≡ before.now }
    ensures folded { IfOk result (λ losses. AreFoldedWithLosses before.now after.new.items losses) }
    ensures forms { OnOk result (AllItems (λ i. HasForm i.kind) before.now) }
{
    know_forms(before);
    let ways = jump_chains(alloc, before)?;
    let losses = fold_losses(alloc, before, &ways)?;
    fold_blocks(alloc, after)?;
    put_kills(alloc, before, &ways, after)?;
    Ok(losses)
}
