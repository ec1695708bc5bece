//! The forward walk over a block, and the propagation to its successors.

ghost use Rattle.std.specs.Prelude.{◌≡◌, ◌+◌, ◌<◌, ◌&&◌, [], true, false, length, All, Some};
ghost use Rattle.std.specs.Prelude.{slice_index_or};
ghost use Rattle.rv64_instr.specs.declared.place.Place.{Place};
ghost use Rattle.mir_func.specs.Sound.{SlotsIn, AllItems};
ghost use Rattle.mir_func.proofs.Ways.{IsOut};
ghost use Rattle.pass_liveness.specs.Sets.{has};
ghost use Rattle.dce_stale.specs.Flow.{wrong_past, goes_on, wrong_at, IsHanded};
ghost use Rattle.dce_stale.specs.Sets.{Handed, HandsOn};

use base_ids::function_ids::BlockId;
use base_list::List;
use mir_func::block::Block;
use mir_func::exit::Exit;
use mir_func::func::Func;
use mir_func::item::{Item, ItemKind};
use mir_func::successors::id_at;
use pass_liveness::names::SlotAndBlockNumbers;
use pass_liveness::set::PlaceSet;

/// Whether the item of an index is dead; false if there is none.
pub fn verdict(dead: &[bool], index: usize) -> bool
    ensures { result ≡ slice_index_or dead.now index false }
{
    match dead.get(index) {
        Some(goes) => *goes,
        None => false,
    }
}

/// Whether each item of the block of an index is dead; empty if there is no such block.
pub fn verdicts_at(dead: &[List<bool>], block: usize) -> &[bool]
    ensures { result.now ≡ slice_index_or dead.now block [] }
{
    match dead.get(block) {
        Some(verdicts) => verdicts.as_slice(),
        None => &[],
    }
}

/// From the places that are wrong before an item to those that are wrong after it.
pub fn step_down(names: &SlotAndBlockNumbers, set: &mut PlaceSet, kind: &ItemKind, dead: bool)
    ensures { SlotsIn names.now.slots kind.now → (x : Place) →
        has names.now.slots set.new x ≡ wrong_past kind.now dead (has names.now.slots set.old) x }
{
    match kind {
        ItemKind::Code(i, _) => {
            if dead {
                names.insert_defined(set, i);
            } else {
                names.remove_defined(set, i);
            }
        }
        ItemKind::Mark(_, _) | ItemKind::Phi(_, _) => {}
    }
}

/// From the places that are wrong after an item to those that are wrong before the next item.
pub fn go_on(names: &SlotAndBlockNumbers, set: &mut PlaceSet, exit: Exit)
    ensures { (x : Place) → has names.now.slots set.new x ≡ (goes_on exit && has names.now.slots set.old x) }
{
    match exit {
        Exit::Onward | Exit::Perhaps(_) => {}
        Exit::Always(_) => set.clear(),
        Exit::Final => set.clear(),
    }
}

/// Adds these places to the set of a block, and returns whether it grew.
fn hand_to(
    names: &SlotAndBlockNumbers,
    starts: &mut Vec<PlaceSet>,
    set: &PlaceSet,
    n: BlockId,
) -> bool
    requires { length starts.old.items ≡ length names.now.blocks }
    ensures { Handed names.now.slots names.now.blocks starts.old.items starts.new.items
        (λ m x. (n ≡ m) × (has names.now.slots set.now x ≡ true)) result }
{
    match names.blocks.find(n.number()) {
        None => false,
        Some(index) => if index < starts.len() {
            starts[index].unite(set)
        } else {
            false
        },
    }
}

/// Adds these places to the sets of an item's branch targets, and returns whether any grew.
fn hand_out(
    names: &SlotAndBlockNumbers,
    starts: &mut Vec<PlaceSet>,
    set: &PlaceSet,
    exit: Exit,
) -> bool
    requires { length starts.old.items ≡ length names.now.blocks }
    ensures { Handed names.now.slots names.now.blocks starts.old.items starts.new.items
        (λ m x. IsOut exit m × (has names.now.slots set.now x ≡ true)) result }
{
    match exit {
        Exit::Onward | Exit::Final => false,
        Exit::Perhaps(n) => hand_to(names, starts, set, n),
        Exit::Always(n) => hand_to(names, starts, set, n),
    }
}

/// Adds these places to the set of the block that comes next, and returns whether it grew.
fn hand_down(
    names: &SlotAndBlockNumbers,
    starts: &mut Vec<PlaceSet>,
    set: &PlaceSet,
    next: Option<BlockId>,
) -> bool
    requires { length starts.old.items ≡ length names.now.blocks }
    ensures { Handed names.now.slots names.now.blocks starts.old.items starts.new.items
        (λ m x. (next ≡ Some m) × (has names.now.slots set.now x ≡ true)) result }
{
    match next {
        None => false,
        Some(n) => hand_to(names, starts, set, n),
    }
}

/// Goes over items, and adds what is wrong to the sets of their branch targets. On return `set` has the places that are
/// wrong after them.
fn walk_items(
    names: &SlotAndBlockNumbers,
    items: &[Item],
    dead: &[bool],
    starts: &mut Vec<PlaceSet>,
    set: &mut PlaceSet,
) -> bool
    requires slots { All (λ i. SlotsIn names.now.slots i.kind) items.now }
    requires long { length starts.old.items ≡ length names.now.blocks }
    ensures set { has names.now.slots set.new ≡
        wrong_at items.now dead.now (length items.now) (has names.now.slots set.old) }
    ensures starts { Handed names.now.slots names.now.blocks starts.old.items starts.new.items
        (IsHanded items.now dead.now (has names.now.slots set.old) (length items.now)) result }
{
    let mut grown = false;
    for at in 0..items.len() {
        let kind = &items[at].kind;
        step_down(names, set, kind, verdict(dead, at));
        if hand_out(names, starts, set, kind.exit()) {
            grown = true;
        }
        go_on(names, set, kind.exit());
    }
    grown
}

/// Goes over a block, and adds what is wrong to the sets of its successors. Returns whether a set grew.
pub fn visit(
    names: &SlotAndBlockNumbers,
    f: &Func,
    dead: &[List<bool>],
    starts: &mut Vec<PlaceSet>,
    block: usize,
) -> bool
    requires slots { AllItems (λ i. SlotsIn names.now.slots i.kind) f.now.blocks }
    requires long { length starts.old.items ≡ length names.now.blocks }
    requires inside { block < length starts.old.items }
    requires there { block < length f.now.blocks }
    ensures { Handed names.now.slots names.now.blocks starts.old.items starts.new.items
        (HandsOn names.now.slots names.now.blocks f.now dead.now starts.old.items block) result }
{
    let blocks = f.blocks.as_slice();
    let next = id_at(blocks, block + 1);
    let mut set = starts[block].copy();
    let within = walk_items(
        names,
        blocks[block].items.as_slice(),
        verdicts_at(dead, block),
        starts,
        &mut set,
    );
    let below = hand_down(names, starts, &set, next);
    within || below
}
