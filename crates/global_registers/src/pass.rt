//! The pass that makes calls and ends read the global registers, or no longer read them.

ghost use Rattle.std.specs.Prelude.{◌≡◌, [], ◌∷◌, OnOk, OnErr, true, false};
ghost use Rattle.mir_func.specs.Sound.{IsSound};
ghost use Rattle.global_registers.specs.Shared.{function_by};
ghost use Rattle.global_registers.specs.Pass.{shared_step};
ghost use Rattle.global_registers.specs.Laws.{one_shared, same_shared};
ghost use Rattle.std.proofs.Common.{rules};

use crate::shared::blocks_by;
use mir_func::func::Func;
use mir_substitution::substitutions::Substitutions;
use pass_trait::loss::Losses;
use pass_trait::pass::Pass;
use std::alloc::{AllocError, Global};

/// Makes each call, call in tail position and return read x3 and x4, or takes that out again. Nothing is lost.
#[derive(Drop)]
pub struct GlobalRegisterPass {
    /// Whether they read them from here on.
    pub shares: bool,
}

impl Pass for GlobalRegisterPass {
    ghost asks = { false };

    ghost keeps = { true };

    ghost fits = { true };

    ghost factor = { 1 };

    ghost count = { 0 };

    ghost steps = { λ s. shared_step s.shares ∷ [] };

    fn run(
        &mut self,
        alloc: Global,
        f: &mut Func,
        _subs: &mut Substitutions,
    ) -> Result<Losses, AllocError> {
        share(alloc, self.shares, f)?;
        Ok(Losses::new(alloc))
    }

    ghost one_code = { λ s. (one_shared s.shares, tt) };

    ghost same_code = { λ s. (same_shared s.shares, tt) };

    ghost grows = { Prim.search rules };
}

/// The function's calls and ends read the global registers, or don't. After an error it is unchanged.
fn share(alloc: Global, shares: bool, f: &mut Func) -> Result<(), AllocError>
    ensures code { OnOk result (f.new ≡ function_by shares f.old) }
    ensures err { OnErr result (f.new ≡ f.old) }
    ensures sound { IsSound f.old }
{
    let blocks = blocks_by(alloc, shares, f.blocks.as_slice())?;
    f.blocks = blocks;
    Ok(())
}
