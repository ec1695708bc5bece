//! The walk over the points of a function's code, from the end of the text upwards.

ghost use Rattle.std.specs.Prelude.{◌≡◌, ◌⊎◌, ◌≤◌, ◌++◌, ◌∷◌, ◌||◌, ◌&&◌, not, true, ℕ, List, [], All, length, IfOk, OnOk};
ghost use Rattle.rv64_instr.specs.declared.place.Place.{Place};
ghost use Rattle.rv64_instr.specs.declared.place.Place.TheVariants.{Register};
ghost use Rattle.rv64_instr.specs.LocationEffects.{uses_of, defines_of};
ghost use Rattle.rv64_instr.specs.Row.{row_of};
ghost use Rattle.mir_func.specs.declared.exit.Exit.TheVariants.{Onward};
ghost use Rattle.mir_func.specs.Sound.{AllItems, SlotsIn};
ghost use Rattle.pass_liveness.specs.Sets.{has, has_bit};
ghost use Rattle.pass_liveness.specs.Liveness.{has_at_start};
ghost use Rattle.pass_liveness.specs.Walk.{live_before};
ghost use Rattle.scan_intervals.specs.Points.{CodePoint, with_point, points_in, points_of};
ghost use Rattle.scan_liveness.specs.Described.{Describes, DescribesPending, is_in, point_of};

use crate::extents::{Extent, close, touch};
use crate::masks::mask_of;
use base_ids::function_ids::BlockId;
use mir_func::block::Block;
use mir_func::exit::Exit;
use mir_func::item::{Item, ItemKind};
use pass_liveness::names::SlotAndBlockNumbers;
use pass_liveness::set::PlaceSet;
use rv64_instr::instr::Instr;
use std::alloc::AllocError;

/// Adds the points of blocks to masks and extents, the last one first.
pub(crate) fn push_blocks(
    numbers: &SlotAndBlockNumbers,
    starts: &[PlaceSet],
    blocks: &[Block],
    masks: &mut Vec<u32>,
    extents: &mut Vec<Option<Extent>>,
) -> Result<(), AllocError>
    requires slots { AllItems (λ i. SlotsIn numbers.now.slots i.kind) blocks.now }
    requires few { length extents.old.items ≤ 4096 }
    ensures long { OnOk result (length extents.new.items ≡ length extents.old.items) }
    ensures described { OnOk result (Describes [] masks.old.items extents.old.items →
        Describes (points_of (has_at_start numbers.now.slots numbers.now.blocks starts.now) blocks.now)
        masks.new.items extents.new.items) }
{
    let mut pending = PlaceSet::new();
    push_pending(numbers, starts, blocks, &mut pending, masks, extents)?;
    close(numbers, &pending, masks.len(), extents);
    Ok(())
}

/// The same, where the extents of the registers of `pending` are pending: none at first, and in the end those that are
/// live where the text starts.
fn push_pending(
    numbers: &SlotAndBlockNumbers,
    starts: &[PlaceSet],
    blocks: &[Block],
    pending: &mut PlaceSet,
    masks: &mut Vec<u32>,
    extents: &mut Vec<Option<Extent>>,
) -> Result<(), AllocError>
    requires slots { AllItems (λ i. SlotsIn numbers.now.slots i.kind) blocks.now }
    requires few { length extents.old.items ≤ 4096 }
    ensures long { OnOk result (length extents.new.items ≡ length extents.old.items) }
    ensures described { OnOk result (
        DescribesPending [] masks.old.items (is_in numbers.now.slots pending.old) extents.old.items →
        DescribesPending (points_of (has_at_start numbers.now.slots numbers.now.blocks starts.now) blocks.now)
        masks.new.items (is_in numbers.now.slots pending.new) extents.new.items) }
{
    let mut next = None;
    let mut above = blocks;
    while let Some((block, rest)) = above.split_last() {
        push_items(
            numbers,
            starts,
            block.items.as_slice(),
            next,
            pending,
            masks,
            extents,
        )?;
        next = Some(block.id);
        above = rest;
    }
    Ok(())
}

/// Adds the points of the items of a block, if the block with this number comes next.
fn push_items(
    numbers: &SlotAndBlockNumbers,
    starts: &[PlaceSet],
    items: &[Item],
    next: Option<BlockId>,
    pending: &mut PlaceSet,
    masks: &mut Vec<u32>,
    extents: &mut Vec<Option<Extent>>,
) -> Result<(), AllocError>
    requires slots { All (λ i. SlotsIn numbers.now.slots i.kind) items.now }
    requires few { length extents.old.items ≤ 4096 }
    ensures long { OnOk result (length extents.new.items ≡ length extents.old.items) }
    ensures described { OnOk result ((points : List CodePoint) →
        DescribesPending points masks.old.items (is_in numbers.now.slots pending.old) extents.old.items →
        DescribesPending (points_in (has_at_start numbers.now.slots numbers.now.blocks starts.now) items.now next ++ points)
        masks.new.items (is_in numbers.now.slots pending.new) extents.new.items) }
{
    let mut set = numbers.live_from(starts, &[], next);
    let mut quiet = false;
    let mut above = items;
    while let Some((item, rest)) = above.split_last() {
        let still = is_still_quiet(quiet, item.kind.exit());
        numbers.step_across(&mut set, starts, item.kind.exit());
        let after = set.copy();
        let same = is_quiet(still, pending, &after);
        numbers.step_up(&mut set, &item.kind);
        quiet = push_item(
            numbers, pending, &set, &after, &item.kind, same, masks, extents,
        )?;
        above = rest;
    }
    Ok(())
}

/// Whether the pending registers are those that are live after an item with this exit, if they are so before the next one.
fn is_still_quiet(quiet: bool, exit: Exit) -> bool
    ensures { result ≡ true → (quiet ≡ true) × (exit ≡ Onward) }
{
    match exit {
        Exit::Onward => quiet,
        Exit::Perhaps(_) | Exit::Always(_) | Exit::Final => false,
    }
}

/// Whether the pending registers are those of a set: they are `still`, or the sets are the same.
fn is_quiet(still: bool, pending: &PlaceSet, set: &PlaceSet) -> bool
    ensures { result ≡ true → (still ≡ true) ⊎ ((i : ℕ) → has_bit pending.now i ≡ has_bit set.now i) }
{
    if still {
        return true;
    }
    if is_part(pending, set) {
        is_part(set, pending)
    } else {
        false
    }
}

/// Whether all members of a set are members of another one.
fn is_part(one: &PlaceSet, other: &PlaceSet) -> bool
    ensures { result ≡ true → (i : ℕ) → has_bit other.now i ≡ (has_bit other.now i || has_bit one.now i) }
{
    let mut all = other.copy();
    !all.unite(one)
}

/// Adds the point of an item, if it is code, before and after which these places are live. If `quiet`, the registers of
/// `pending` are those that are live after it. Returns whether they are those that are live before it.
fn push_item(
    numbers: &SlotAndBlockNumbers,
    pending: &mut PlaceSet,
    before: &PlaceSet,
    after: &PlaceSet,
    kind: &ItemKind,
    quiet: bool,
    masks: &mut Vec<u32>,
    extents: &mut Vec<Option<Extent>>,
) -> Result<bool, AllocError>
    requires few { length extents.old.items ≤ 4096 }
    requires up { (x : Place) → has numbers.now.slots before.now x ≡ live_before kind.now (has numbers.now.slots after.now x) x }
    requires quiet { quiet ≡ true → (r : ℕ) → is_in numbers.now.slots pending.old r ≡ is_in numbers.now.slots after.now r }
    ensures long { OnOk result (length extents.new.items ≡ length extents.old.items) }
    ensures quiet { IfOk result (λ still. still ≡ true → (r : ℕ) →
        is_in numbers.now.slots pending.new r ≡ is_in numbers.now.slots before.now r) }
    ensures described { OnOk result ((points : List CodePoint) →
        DescribesPending points masks.old.items (is_in numbers.now.slots pending.old) extents.old.items →
        DescribesPending (with_point kind.now (point_of numbers.now.slots before.now after.now) points)
        masks.new.items (is_in numbers.now.slots pending.new) extents.new.items) }
{
    match kind {
        ItemKind::Code(i, _) => {
            push_code(numbers, pending, before, after, i, quiet, masks, extents)?;
            Ok(true)
        }
        ItemKind::Mark(_, _) | ItemKind::Phi(_, _) => Ok(quiet),
    }
}

fn push_code(
    numbers: &SlotAndBlockNumbers,
    pending: &mut PlaceSet,
    before: &PlaceSet,
    after: &PlaceSet,
    i: &Instr,
    quiet: bool,
    masks: &mut Vec<u32>,
    extents: &mut Vec<Option<Extent>>,
) -> Result<(), AllocError>
    requires few { length extents.old.items ≤ 4096 }
    requires up { (r : ℕ) → is_in numbers.now.slots before.now r ≡ (uses_of i.now (Register r) ||
        (is_in numbers.now.slots after.now r && not (defines_of (row_of i.now) (Register r)))) }
    requires quiet { quiet ≡ true → (r : ℕ) → is_in numbers.now.slots pending.old r ≡ is_in numbers.now.slots after.now r }
    ensures long { OnOk result (length extents.new.items ≡ length extents.old.items) }
    ensures pending { OnOk result (pending.new ≡ before.now) }
    ensures described { OnOk result ((points : List CodePoint) →
        DescribesPending points masks.old.items (is_in numbers.now.slots pending.old) extents.old.items →
        DescribesPending (point_of numbers.now.slots before.now after.now i.now ∷ points)
        masks.new.items (is_in numbers.now.slots before.now) extents.new.items) }
{
    let at = masks.len();
    masks.push(mask_of(numbers, after, i))?;
    touch(numbers, pending, before, after, i, at, quiet, extents);
    *pending = before.copy();
    Ok(())
}
