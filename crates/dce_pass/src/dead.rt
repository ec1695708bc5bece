//! The dead code elimination pass.

ghost use Rattle.std.specs.Prelude.{◌≡◌, false, true};
ghost use Rattle.dce_pass.specs.Steps.{dead_steps};
ghost use Rattle.dce_pass.specs.PassLaws.{rounds_have_one_result, rounds_see_code_alone};
ghost use Rattle.std.proofs.Common.{rules};

use crate::rounds::dead_rounds;
use crate::rounds_laws::rounds_keep;
use crate::steps_laws::rounds_keep_steps;
use mir_func::func::Func;
use mir_substitution::substitutions::Substitutions;
use pass_trait::loss::Losses;
use pass_trait::pass::Pass;
use std::alloc::{AllocError, Global};

/// Removes dead code in rounds, until nothing is dead (LLVM: dead machine instruction elimination). The losses are the
/// numbers of removed code, except those of copies that are salvaged, and debug values and DBG_PHIs of places that
/// become wrong. The losses of each round are in order, and come before those of later rounds; `pass_manager` makes the
/// report of the whole pass of them, in order and each once.
#[derive(Drop)]
pub struct DeadPass;

impl Pass for DeadPass {
    ghost asks = { false };

    ghost keeps = { true };

    ghost fits = { true };

    ghost factor = { 1 };

    ghost count = { 1 };

    ghost steps = { λ s. dead_steps };

    fn run(
        &mut self,
        alloc: Global,
        f: &mut Func,
        subs: &mut Substitutions,
    ) -> Result<Losses, AllocError> {
        rounds_keep();
        rounds_keep_steps();
        dead_rounds(alloc, f, subs)
    }

    ghost one_code = { λ s. rounds_have_one_result };

    ghost same_code = { λ s. rounds_see_code_alone };

    ghost grows = { Prim.search rules };
}

/// What the pass states of itself: it needs no matched block ends and keeps them, and its bounds on sizes.
pub fn dead_pass_keeps_block_ends()
    ensures asks { ⟦<DeadPass as Pass>⟧.asks ≡ false }
    ensures keeps { ⟦<DeadPass as Pass>⟧.keeps ≡ true }
    ensures fits { ⟦<DeadPass as Pass>⟧.fits ≡ true }
    ensures factor { ⟦<DeadPass as Pass>⟧.factor ≡ 1 }
    ensures count { ⟦<DeadPass as Pass>⟧.count ≡ 1 }
{}
