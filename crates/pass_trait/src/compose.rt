//! Composition of passes: the empty pass, and one pass after another.
ghost use Rattle.std.specs.Prelude.{◌++◌, ◌+◌, ◌*◌, true, false, not, ◌&&◌, ◌||◌, []};
ghost use Rattle.pass_trait.specs.Laws.{one_then, same_then, grows_then};
ghost use Rattle.std.proofs.Common.{rules};

use crate::loss::Losses;
use crate::pass::Pass;
use mir_substitution::substitutions::Substitutions;
use sem_simulation::mir_func_crate::func::Func;
use std::alloc::{AllocError, Global};

/// The pass that does nothing.
#[derive(Drop)]
pub struct Nothing;

impl Pass for Nothing {
    ghost asks = { false };

    ghost keeps = { true };

    ghost fits = { true };

    ghost factor = { 1 };

    ghost count = { 0 };

    ghost steps = { λ s. [] };

    fn run(
        &mut self,
        alloc: Global,
        _f: &mut Func,
        _subs: &mut Substitutions,
    ) -> Result<Losses, AllocError> {
        Ok(Losses::new(alloc))
    }

    ghost one_code = { λ s. tt };

    ghost same_code = { λ s. tt };

    ghost grows = { Prim.search rules };
}

/// Runs one pass, and then another.
#[derive(Drop)]
pub struct Then<A: Pass, B: Pass> {
    /// The pass that runs first.
    pub first: A,
    /// The pass that runs second.
    pub second: B,
}

impl<A: Pass, B: Pass> Pass for Then<A, B> {
    ghost asks = { A.asks || B.asks };

    ghost keeps = { A.keeps && B.keeps };

    ghost fits = { A.fits && (B.fits && (not B.asks || A.keeps)) };

    ghost factor = { A.factor * B.factor };

    ghost count = { A.count * B.factor + B.count };

    ghost steps = { λ s. A.steps s.first ++ B.steps s.second };

    fn run(
        &mut self,
        alloc: Global,
        f: &mut Func,
        subs: &mut Substitutions,
    ) -> Result<Losses, AllocError> {
        let mut losses = self.first.run(alloc, f, subs)?;
        let later = self.second.run(alloc, f, subs)?;
        losses.extend_from_slice(later.as_slice())?;
        Ok(losses)
    }

    ghost one_code = { λ s. one_then (A.steps s.first) _ (A.one_code s.first) (B.one_code s.second) };

    ghost same_code = { λ s. same_then (A.steps s.first) _ (A.same_code s.first) (B.same_code s.second) };

    ghost grows = { grows_then A.factor B.factor A.grows B.grows };
}
