//! Rounds of dead code elimination.

ghost use Rattle.std.specs.Prelude.{◌+◌, ◌<◌, ◌^◌, IfOk};
ghost use Rattle.mir_func.specs.Sound.{IsSound};
ghost use Rattle.pass_trait.specs.Sizes.{greatest_number, item_count};
ghost use Rattle.dce_pass.specs.Rounds.{AreDeadRounds};

use dce_proof::one_round::dead_round;
use mir_func::func::Func;
use mir_substitution::substitutions::Substitutions;
use pass_trait::loss::Losses;
use std::alloc::{AllocError, Global};

/// Removes the dead code of a function in rounds, until nothing is dead, and returns the losses, round by round. After
/// an error the function and the substitutions may only be dropped.
pub fn dead_rounds(
    alloc: Global,
    f: &mut Func,
    subs: &mut Substitutions,
) -> Result<Losses, AllocError>
    requires { greatest_number f.old subs.old + item_count f.old + 1 < 2 ^ 31 }
    ensures rounds { IfOk result (AreDeadRounds f.old subs.old f.new subs.new) }
    ensures sound { IsSound f.old }
{
    let _ = &f.blocks;
    let mut losses = Losses::new(alloc);
    let mut going = true;
    while going {
        match dead_round(alloc, f, subs)? {
            Some(more) => losses.extend_from_slice(more.as_slice())?,
            None => going = false,
        }
    }
    Ok(losses)
}
