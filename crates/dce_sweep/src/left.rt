//! What remains of blocks, and what is lost.

ghost use Rattle.std.specs.Prelude.{◌≡◌, ◌++◌, map, cond, Some, None, All, IfOk, OnOk, option_to_list};
ghost use Rattle.mir_func.specs.declared.item.ItemKind.TheVariants.{Mark, Phi};
ghost use Rattle.mir_func.specs.Sound.{SlotsIn};
ghost use Rattle.pass_liveness.specs.Sets.{has};
ghost use Rattle.dce_stale.specs.dce_rule.Dead.{Ends};
ghost use Rattle.dce_stale.specs.dce_rule.Wrong.{silenced, silenced_block};
ghost use Rattle.dce_stale.specs.Flow.{wrong_at};
ghost use Rattle.dce_stale.specs.Sets.{AreVerdicts, AreStaleSets, wrong_of, starts_of};
ghost use Rattle.dce_sweep.specs.Left.{asks_wrong, left_of, lost_of, left_from, lost_from, lost_in};

use base_ids::function_ids::DebugNumber;
use base_list::List;
use dce_salvage::dead_indices::{verdict, verdicts_at};
use dce_stale::places::StaleLocations;
use mir_func::block::Block;
use mir_func::func::Func;
use mir_func::item::{Item, ItemKind};
use mir_func::position::{Origin, position_of};
use mir_func::variable::{MarkValue, VarId};
use pass_liveness::set::PlaceSet;
use pass_trait::loss::{Loss, Lost, Reason};
use rv64_instr::place::Place;
use std::alloc::{AllocError, Global};

/// What remains of a function's blocks without the dead items, if these places are wrong. Losses are appended to
/// `lost`, in the order of the text.
pub fn left_blocks(
    alloc: Global,
    f: &Func,
    wrong: &StaleLocations,
    dead: &[List<bool>],
    lost: &mut Vec<Loss>,
) -> Result<Vec<Block>, AllocError>
    requires { AreStaleSets f.now dead.now wrong.now }
    ensures left { IfOk result (λ left. (ends : Ends) → AreVerdicts ends f.now dead.now →
        left.items ≡ map (silenced_block (wrong_of ends f.now (starts_of wrong.now)) ends) f.now.blocks) }
    ensures lost { OnOk result ((ends : Ends) → AreVerdicts ends f.now dead.now →
        lost.new.items ≡ lost.old.items ++ lost_in (wrong_of ends f.now (starts_of wrong.now)) ends f.now.blocks) }
{
    let blocks = f.blocks.as_slice();
    let mut left = Vec::with_capacity(alloc, blocks.len())?;
    for block in 0..blocks.len() {
        let b = &blocks[block];
        let mut set = wrong.at_start(block);
        let items = left_items(
            alloc,
            wrong,
            b.items.as_slice(),
            verdicts_at(dead, block),
            &mut set,
            lost,
        )?;
        left.push(Block {
            id: b.id,
            items: List::from(items),
            source_end: b.source_end,
        })?;
    }
    Ok(left)
}

/// What remains of a block's items, if the places of `set` are wrong at the block's start.
fn left_items(
    alloc: Global,
    wrong: &StaleLocations,
    items: &[Item],
    dead: &[bool],
    set: &mut PlaceSet,
    lost: &mut Vec<Loss>,
) -> Result<Vec<Item>, AllocError>
    requires { All (λ i. SlotsIn wrong.now.slots i.kind) items.now }
    ensures left { IfOk result (λ left. left.items
        ≡ left_from (λ k. wrong_at items.now dead.now k (has wrong.now.slots set.old)) dead.now 0 items.now) }
    ensures lost { OnOk result (lost.new.items ≡ lost.old.items
        ++ lost_from (λ k. wrong_at items.now dead.now k (has wrong.now.slots set.old)) dead.now 0 items.now) }
{
    let mut left = Vec::with_capacity(alloc, items.len())?;
    for at in 0..items.len() {
        let item = &items[at];
        let goes = verdict(dead, at);
        keep(wrong, set, item, goes, &mut left, lost)?;
        wrong.step_down(set, &item.kind, goes);
        wrong.go_on(set, item.kind.exit());
    }
    Ok(left)
}

/// Appends what remains of an item, and what is lost of it, if these places are wrong before it.
fn keep(
    wrong: &StaleLocations,
    set: &PlaceSet,
    item: &Item,
    goes: bool,
    left: &mut Vec<Item>,
    lost: &mut Vec<Loss>,
) -> Result<(), AllocError>
    ensures left { OnOk result (left.new.items
        ≡ left.old.items ++ left_of (has wrong.now.slots set.now) goes item.now) }
    ensures lost { OnOk result (lost.new.items
        ≡ lost.old.items ++ option_to_list (lost_of (has wrong.now.slots set.now) goes item.now.kind item.now.origin)) }
{
    tell(wrong, set, &item.kind, item.origin, goes, lost)?;
    stay(wrong, set, item, goes, left)
}

/// Appends the item, unless it is dead.
fn stay(
    wrong: &StaleLocations,
    set: &PlaceSet,
    item: &Item,
    goes: bool,
    left: &mut Vec<Item>,
) -> Result<(), AllocError>
    ensures { OnOk result (left.new.items ≡ left.old.items ++ left_of (has wrong.now.slots set.now) goes item.now) }
{
    if goes {
        return Ok(());
    }
    let kind = silenced(wrong, set, &item.kind)?;
    left.push(Item {
        kind,
        origin: item.origin,
        loc: item.loc,
    })?;
    Ok(())
}

/// The item, undef if it reads a wrong place.
fn silenced(wrong: &StaleLocations, set: &PlaceSet, kind: &ItemKind) -> Result<ItemKind, AllocError>
    ensures { IfOk result (λ now. now ≡ silenced (has wrong.now.slots set.now) kind.now) }
{
    match kind {
        ItemKind::Code(_, _) => kind.copy(),
        ItemKind::Mark(variable, value) => Ok(silenced_mark(wrong, set, *variable, *value)),
        ItemKind::Phi(place, number) => Ok(silenced_phi(wrong, set, *place, *number)),
    }
}

fn silenced_mark(
    wrong: &StaleLocations,
    set: &PlaceSet,
    variable: VarId,
    value: MarkValue,
) -> ItemKind
    ensures { result ≡ silenced (has wrong.now.slots set.now) (Mark variable value) }
{
    match value {
        MarkValue::At(r) => if wrong.contains(set, Place::Register(r)) {
            ItemKind::Mark(variable, MarkValue::Nothing)
        } else {
            ItemKind::Mark(variable, MarkValue::At(r))
        },
        MarkValue::Nothing | MarkValue::Constant(_) | MarkValue::Pair(_) => ItemKind::Mark(
            variable, value,
        ),
    }
}

#[tactic(auto, using(crate::proofs::Quiet::phi_wrong, crate::proofs::Quiet::phi_right))]
fn silenced_phi(
    wrong: &StaleLocations,
    set: &PlaceSet,
    place: Option<Place>,
    number: DebugNumber,
) -> ItemKind
    ensures { result ≡ silenced (has wrong.now.slots set.now) (Phi place number) }
{
    if asks_wrong(wrong, set, &place) {
        ItemKind::Phi(None, number)
    } else {
        ItemKind::Phi(place, number)
    }
}

/// Whether a DBG_PHI of this location reads a wrong place.
fn asks_wrong(wrong: &StaleLocations, set: &PlaceSet, place: &Option<Place>) -> bool
    ensures { result ≡ asks_wrong (has wrong.now.slots set.now) place.now }
{
    match place {
        Some(p) => wrong.contains(set, *p),
        None => false,
    }
}

/// Appends what is lost of an item: the number of dead code, and a debug value or DBG_PHI of a wrong place.
fn tell(
    wrong: &StaleLocations,
    set: &PlaceSet,
    kind: &ItemKind,
    origin: Origin,
    goes: bool,
    lost: &mut Vec<Loss>,
) -> Result<(), AllocError>
    ensures { OnOk result (lost.new.items
        ≡ lost.old.items ++ option_to_list (lost_of (has wrong.now.slots set.now) goes kind.now origin)) }
{
    match kind {
        ItemKind::Code(_, Some(number)) => tell_where(
            lost,
            goes,
            Lost::Number(*number),
            Reason::Removed,
        ),
        ItemKind::Mark(_, MarkValue::At(r)) => tell_where(
            lost,
            wrong.contains(set, Place::Register(*r)),
            Lost::Mark(position_of(origin)),
            Reason::WrongPlace,
        ),
        ItemKind::Phi(Some(p), number) => tell_where(
            lost,
            wrong.contains(set, *p),
            Lost::Number(*number),
            Reason::WrongPlace,
        ),
        ItemKind::Code(_, None)
        | ItemKind::Mark(_, MarkValue::Nothing)
        | ItemKind::Mark(_, MarkValue::Constant(_))
        | ItemKind::Mark(_, MarkValue::Pair(_))
        | ItemKind::Phi(None, _) => Ok(()),
    }
}

/// Appends the loss, if there is one.
fn tell_where(
    lost: &mut Vec<Loss>,
    comes: bool,
    what: Lost,
    reason: Reason,
) -> Result<(), AllocError>
    ensures { OnOk result (lost.new.items
        ≡ lost.old.items ++ option_to_list (cond comes (Some (record { what = what; reason = reason })) None)) }
{
    if comes {
        lost.push(Loss { what, reason })?;
    }
    Ok(())
}
