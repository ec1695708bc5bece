//! Backward liveness of a place over one item.

ghost use Rattle.std.specs.Prelude.{◌≡◌, ◌||◌, ◌&&◌, not};
ghost use Rattle.pass_liveness.specs.rv64_instr.declared.place.Place.{Place};
ghost use Rattle.pass_liveness.specs.rv64_instr.Row.{row_of};
ghost use Rattle.pass_liveness.specs.rv64_instr.LocationEffects.{uses_of, defines_of};
ghost use Rattle.pass_liveness.specs.Walk.{live_before, live_across, live_past};
ghost use Rattle.place_liveness.specs.Alone.{is_target};

use pass_liveness::mir_func_crate::exit::Exit;
use pass_liveness::mir_func_crate::item::ItemKind;
use pass_liveness::rv64_instr_crate::base_ids_crate::function_ids::BlockId;
use pass_liveness::rv64_instr_crate::instr::Instr;
use pass_liveness::rv64_instr_crate::place::Place;

/// Whether a block is the target.
pub fn is_target(target: &Option<BlockId>, n: BlockId) -> bool
    ensures { result ≡ is_target target.now n }
{
    match target {
        None => false,
        Some(m) => *m == n,
    }
}

/// Whether a place that is live at the start of the target alone is live at a block's end, if this block comes next.
pub fn live_past(next: Option<BlockId>, target: &Option<BlockId>) -> bool
    ensures { (x : Place) → result ≡ live_past (λ n y. is_target target.now n) next x }
{
    match next {
        None => false,
        Some(n) => is_target(target, n),
    }
}

/// Whether it is live after an item with this exit, if `below` is whether it is live before the next one.
pub fn live_across(exit: Exit, below: bool, target: &Option<BlockId>) -> bool
    ensures { (x : Place) → result ≡ live_across (λ n y. is_target target.now n) exit below x }
{
    match exit {
        Exit::Onward => below,
        Exit::Perhaps(n) => either(below, is_target(target, n)),
        Exit::Always(n) => is_target(target, n),
        Exit::Final => false,
    }
}

fn either(a: bool, b: bool) -> bool
    ensures { result ≡ (a || b) }
{
    a || b
}

/// Whether a place is live before an item, if `after` is whether it is live after it.
pub fn live_before(kind: &ItemKind, after: bool, place: &Place) -> bool
    ensures { result ≡ live_before kind.now after place.now }
{
    match kind {
        ItemKind::Code(i, _) => over_code(i, after, place),
        ItemKind::Mark(_, _) | ItemKind::Phi(_, _) => after,
    }
}

fn over_code(i: &Instr, after: bool, place: &Place) -> bool
    ensures { result ≡ (uses_of i.now place.now || (after && not (defines_of (row_of i.now) place.now))) }
{
    i.uses(*place) || (after && !i.defines(*place))
}
