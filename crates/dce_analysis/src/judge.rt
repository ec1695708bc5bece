//! Which items of a function are dead.

ghost use Rattle.std.specs.Prelude.{◌≡◌, ◌<◌, All, IfOk};
ghost use Rattle.rv64_instr.specs.Row.{row_of};
ghost use Rattle.mir_func.specs.Sound.{SlotsIn};
ghost use Rattle.pass_liveness.specs.Sets.{has};
ghost use Rattle.pass_liveness.specs.Liveness.{AreLiveSets};
ghost use Rattle.dce_rule.specs.Dead.{is_dead_row, is_dead_code, is_dead};
ghost use Rattle.rv64_instr.specs.LocationEffects.{defines_of};
ghost use Rattle.rv64_instr.specs.declared.place.Place.TheVariants.{Register};
ghost use Rattle.dce_analysis.specs.Judge.{verdicts, AreJudged};

use base_list::List;
use mir_func::func::Func;
use mir_func::item::{Item, ItemKind};
use pass_liveness::live::Live;
use pass_liveness::set::PlaceSet;
use rv64_instr::instr::Instr;
use rv64_instr::place::Place;
use rv64_instr::reg::physical;
use std::alloc::{AllocError, Global};

/// For each block of a function and each of its items whether it is dead code, if the places that are live out of the
/// block are needed at its end.
pub fn judge(alloc: Global, f: &Func, live: &Live) -> Result<List<List<bool>>, AllocError>
    requires { AreLiveSets f.now live.now }
    ensures { IfOk result (AreJudged f.now) }
{
    let mut dead = List::new(alloc);
    for block in 0..f.blocks.len() {
        let mut needed = live.past_block(f, block);
        dead.push(judge_items(
            alloc,
            live,
            f.blocks.as_slice()[block].items.as_slice(),
            &mut needed,
        )?)?;
    }
    Ok(dead)
}

/// Whether each of these items is dead code, if `needed` is needed after them. On return `needed` has the places that
/// are needed before them.
fn judge_items(
    alloc: Global,
    live: &Live,
    items: &[Item],
    needed: &mut PlaceSet,
) -> Result<List<bool>, AllocError>
    requires { All (λ i. SlotsIn live.now.slots i.kind) items.now }
    ensures { IfOk result (λ dead. dead ≡ verdicts items.now (has live.now.slots needed.old)) }
{
    let mut dead = Vec::with_capacity(alloc, items.len())?;
    let mut above = items;
    while let Some((item, rest)) = above.split_last() {
        let goes = is_dead(live, needed, &item.kind);
        if !goes {
            live.step_up(needed, &item.kind);
        }
        dead.push(goes)?;
        above = rest;
    }
    dead.reverse();
    Ok(List::from(dead))
}

/// Whether an item is dead code, if these places are needed after it.
fn is_dead(live: &Live, needed: &PlaceSet, kind: &ItemKind) -> bool
    ensures { result ≡ is_dead kind.now (has live.now.slots needed.now) }
{
    match kind {
        ItemKind::Code(i, _) => is_dead_code(live, needed, i),
        ItemKind::Mark(_, _) | ItemKind::Phi(_, _) => false,
    }
}

/// Whether an instruction has no effect except to set a place that isn't needed, or x0. A volatile load has others.
fn is_dead_code(live: &Live, needed: &PlaceSet, i: &Instr) -> bool
    ensures { result ≡ is_dead_code i.now (has live.now.slots needed.now) }
{
    sets_unneeded(live, needed, i) && !i.is_volatile_load()
}

/// Whether an instruction only sets a place that isn't needed, or x0; a load may read memory besides.
fn sets_unneeded(live: &Live, needed: &PlaceSet, i: &Instr) -> bool
    ensures { result ≡ is_dead_row (row_of i.now) (has live.now.slots needed.now) }
{
    let effect = i.effect();
    effect.pure
        && match effect.def {
            Some(p) => !live.contains(needed, p),
            None => defines_zero(i),
        }
}

/// Whether an instruction defines x0.
fn defines_zero(i: &Instr) -> bool
    ensures { result ≡ defines_of (row_of i.now) (Register 0) }
{
    match physical(0) {
        Some(zero) => i.defines(Place::Register(zero)),
        None => false,
    }
}
