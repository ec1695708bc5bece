//! The forward walk over a block, and the propagation to its successors.

ghost use Rattle.std.specs.Prelude.{◌≡◌, ◌≤◌, ◌<◌, ◌||◌, ℕ, length, Some, true};
ghost use Rattle.rv64_instr.specs.declared.place.Place.{Place};
ghost use Rattle.mir_func.proofs.Ways.{IsOut};
ghost use Rattle.pass_liveness.specs.Sets.{has, has_bit};
ghost use Rattle.dce_stale.specs.Sets.{Handed};
ghost use Rattle.scan_choice.specs.Given.{given_by};
ghost use Rattle.scan_stale.specs.Flow.{stale_at, IsHanded};
ghost use Rattle.scan_stale.specs.Sets.{start_in, HandsOn};
ghost use Rattle.scan_stale.specs.Written.{AreReal};

use crate::places::GivenPlaces;
use crate::transfer::{go_on, step_down, unset_at_start};
use base_ids::function_ids::BlockId;
use mir_func::exit::Exit;
use mir_func::func::Func;
use mir_func::item::Item;
use mir_func::successors::id_at;
use pass_liveness::names::SlotAndBlockNumbers;
use pass_liveness::set::PlaceSet;

/// Adds these registers to the set of a block, and returns whether it grew.
fn hand_to(
    names: &SlotAndBlockNumbers,
    starts: &mut Vec<PlaceSet>,
    set: &PlaceSet,
    n: BlockId,
) -> bool
    requires { length starts.old.items ≡ length names.now.blocks }
    ensures { Handed names.now.slots names.now.blocks starts.old.items starts.new.items
        (λ m x. (n ≡ m) × (has names.now.slots set.now x ≡ true)) result }
{
    match names.blocks.find(n.number()) {
        None => false,
        Some(index) => if index < starts.len() {
            starts[index].unite(set)
        } else {
            false
        },
    }
}

/// Adds these registers to the sets of an item's branch targets, and returns whether any grew.
fn hand_out(
    names: &SlotAndBlockNumbers,
    starts: &mut Vec<PlaceSet>,
    set: &PlaceSet,
    exit: Exit,
) -> bool
    requires { length starts.old.items ≡ length names.now.blocks }
    ensures { Handed names.now.slots names.now.blocks starts.old.items starts.new.items
        (λ m x. IsOut exit m × (has names.now.slots set.now x ≡ true)) result }
{
    match exit {
        Exit::Onward | Exit::Final => false,
        Exit::Perhaps(n) => hand_to(names, starts, set, n),
        Exit::Always(n) => hand_to(names, starts, set, n),
    }
}

/// Adds these registers to the set of the block that comes next, and returns whether it grew.
fn hand_down(
    names: &SlotAndBlockNumbers,
    starts: &mut Vec<PlaceSet>,
    set: &PlaceSet,
    next: Option<BlockId>,
) -> bool
    requires { length starts.old.items ≡ length names.now.blocks }
    ensures { Handed names.now.slots names.now.blocks starts.old.items starts.new.items
        (λ m x. (next ≡ Some m) × (has names.now.slots set.now x ≡ true)) result }
{
    match next {
        None => false,
        Some(n) => hand_to(names, starts, set, n),
    }
}

/// Goes over items, and adds what is stale to the sets of their branch targets. On return `set` has the registers that are
/// stale after them.
fn walk_items(
    names: &SlotAndBlockNumbers,
    given: &GivenPlaces,
    items: &[Item],
    starts: &mut Vec<PlaceSet>,
    set: &mut PlaceSet,
) -> bool
    requires few { length given.now ≤ 4096 }
    requires real { AreReal (given_by given.now) }
    requires long { length starts.old.items ≡ length names.now.blocks }
    ensures set { has names.now.slots set.new ≡
        stale_at (given_by given.now) items.now (length items.now) (has names.now.slots set.old) }
    ensures starts { Handed names.now.slots names.now.blocks starts.old.items starts.new.items
        (IsHanded (given_by given.now) items.now (has names.now.slots set.old) (length items.now)) result }
{
    let mut grown = false;
    for at in 0..items.len() {
        let kind = &items[at].kind;
        step_down(names, given, set, kind);
        if hand_out(names, starts, set, kind.exit()) {
            grown = true;
        }
        go_on(names, set, kind.exit());
    }
    grown
}

/// What is stale where the block of an index starts, if these registers were found to be.
pub fn start_of(
    names: &SlotAndBlockNumbers,
    given: &GivenPlaces,
    found: &PlaceSet,
    block: usize,
) -> PlaceSet
    requires { length given.now ≤ 4096 }
    ensures { (x : Place) → has names.now.slots result x
        ≡ start_in (given_by given.now) block (has names.now.slots found.now) x }
{
    if block == 0 {
        united(found, &unset_at_start(names, given.as_slice()))
    } else {
        found.copy()
    }
}

/// The members of either set.
fn united(one: &PlaceSet, other: &PlaceSet) -> PlaceSet
    ensures { (i : ℕ) → has_bit result i ≡ (has_bit one.now i || has_bit other.now i) }
{
    let mut set = one.copy();
    let _ = set.unite(other);
    set
}

/// Goes over a block, and adds what is stale to the sets of its successors. Returns whether a set grew.
pub fn visit(
    names: &SlotAndBlockNumbers,
    f: &Func,
    given: &GivenPlaces,
    starts: &mut Vec<PlaceSet>,
    block: usize,
) -> bool
    requires few { length given.now ≤ 4096 }
    requires real { AreReal (given_by given.now) }
    requires long { length starts.old.items ≡ length names.now.blocks }
    requires inside { block < length starts.old.items }
    requires there { block < length f.now.blocks }
    ensures { Handed names.now.slots names.now.blocks starts.old.items starts.new.items
        (HandsOn names.now.slots names.now.blocks f.now (given_by given.now) starts.old.items block) result }
{
    let blocks = f.blocks.as_slice();
    let next = id_at(blocks, block + 1);
    let mut set = start_of(names, given, &starts[block], block);
    let within = walk_items(
        names,
        given,
        blocks[block].items.as_slice(),
        starts,
        &mut set,
    );
    let below = hand_down(names, starts, &set, next);
    within || below
}
