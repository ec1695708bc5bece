//! A round of dead code elimination.

ghost use Rattle.std.specs.Prelude.{◌≡◌, ◌++◌, List, IfOk};
ghost use Rattle.std.specs.List.{list_any};
ghost use Rattle.pass_trait.specs.declared.loss.Loss.{Loss as IsLoss};
ghost use Rattle.pass_liveness.specs.Liveness.{AreLiveSets};
ghost use Rattle.dce_sweep.specs.Round.{IsTakenOut};

use crate::left::left_blocks;
use base_list::List;
use dce_salvage::dead_indices::some_dead;
use dce_stale::dce_analysis_crate::judge::judge;
use dce_stale::places::StaleLocations;
use mir_func::func::Func;
use mir_type_facts::blocks::know_forms;
use pass_liveness::live::Live;
use pass_trait::loss::Loss;
use std::alloc::{AllocError, Global};

/// Removes the dead code of a function, once: the places that are live out of a block are needed at its end. Debug
/// values and DBG_PHIs of places that become wrong become undef. Losses are appended to `lost`, in the order of the
/// text. The number of a dead copy is reported as lost too: the caller salvages such numbers before, so that dead
/// copies have none. Returns whether there was dead code; if there was none the function is unchanged, and nothing is
/// lost. After an error the function is unchanged.
pub fn sweep_dead(
    alloc: Global,
    f: &mut Func,
    live: &Live,
    lost: &mut Vec<Loss>,
) -> Result<bool, AllocError>
    requires { AreLiveSets f.old live.now }
    ensures { IfOk result (λ any. (here : List IsLoss) × (lost.new.items ≡ lost.old.items ++ here)
        × IsTakenOut f.old f.new here any) }
{
    know_forms(f.blocks.as_slice());
    let dead = judge(alloc, f, live)?;
    if !has_dead(dead.as_slice()) {
        return Ok(false);
    }
    let wrong = StaleLocations::solve(alloc, f, dead.as_slice())?;
    let left = left_blocks(alloc, f, &wrong, dead.as_slice(), lost)?;
    f.blocks = List::from(left);
    Ok(true)
}

/// Whether some item is dead.
pub fn has_dead(dead: &[List<bool>]) -> bool
    ensures { result ≡ list_any (λ v. list_any (λ d. d) v) dead.now }
{
    dead.iter().any(|v| some_dead(v.as_slice()))
}
