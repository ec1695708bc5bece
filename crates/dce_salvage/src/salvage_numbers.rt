//! Salvage of one copy's number, which leaves the copy in place.

ghost use Rattle.std.specs.Prelude.{◌≡◌, ◌++◌, ◌+◌, ◌<◌, ◌≤◌, ◌^◌, length, take, drop, reverse, true, IfOk, OnOk};
ghost use Rattle.rv64_instr.specs.Row.{row_of};
ghost use Rattle.pass_salvage.specs.SalvageAction.{salvage_action, going_from};
ghost use Rattle.pass_salvage.specs.Salvage.{above_after, entries_for, fresh_after};
ghost use Rattle.dce_salvage.specs.SalvageNumbers.{copied_by, numbered_copy, without_number, salvage_phi, lost_by_salvage, salvaged_items};
ghost use Rattle.dce_salvage.specs.SalvageNumbers.{salvage_at, salvage_down};

use crate::dead_indices::{some_dead, verdict};
use base_ids::function_ids::DebugNumber;
use mir_func::item::{Item, ItemKind};
use mir_func::location::Loc;
use mir_func::position::{Origin, position_of};
use pass_salvage::lookup::Lookup;
use pass_salvage::mir_substitution_crate::substitutions::Substitutions;
use pass_salvage::pass_trait_crate::loss::{Loss, Lost, Reason};
use pass_salvage::salvage::salvage;
use pass_salvage::salvage_action::SalvageAction;
use rv64_instr::decoded::Decoded;
use rv64_instr::instr::Instr;
use rv64_instr::place::Place;
use rv64_instr::reg::Reg;
use std::alloc::AllocError;

/// A copy with a number.
#[derive(Clone, Copy, Debug, PartialEq, Eq)]
pub struct Copied {
    /// Its number.
    pub number: DebugNumber,
    /// The register that it copies.
    pub source: Reg,
    /// Whether it sets the register that it copies.
    pub own: bool,
}

/// The numbered copy that an item is, if it is one.
pub fn numbered_copy(kind: &ItemKind) -> Option<Copied>
    ensures { result ≡ numbered_copy kind.now }
{
    match kind {
        ItemKind::Code(i, Some(number)) => copied_by(i, *number),
        ItemKind::Code(_, None) | ItemKind::Mark(_, _) | ItemKind::Phi(_, _) => None,
    }
}

fn copied_by(i: &Instr, number: DebugNumber) -> Option<Copied>
    ensures { result ≡ copied_by (row_of i.now) number }
{
    match i.decoded() {
        Decoded::Moves(rd, source) => {
            if rd.number() == 0 {
                None
            } else {
                Some(Copied {
                    number,
                    source,
                    own: rd.number() == source.number(),
                })
            }
        }
        _ => None,
    }
}

/// Removes the number from a copy, which stays in place. `dead` has for each item whether it is dead, and so will be
/// removed. `fresh` is a fresh number, and is incremented if it is used. Losses are appended to `lost`: the number of a
/// copy of a register to itself, if only a DBG_PHI could get it. After an error the items and the substitutions may only
/// be dropped.
pub fn salvage_number(
    items: &mut Vec<Item>,
    subs: &mut Substitutions,
    at: usize,
    copied: Copied,
    dead: &[bool],
    fresh: &mut u32,
    lost: &mut Vec<Loss>,
) -> Result<(), AllocError>
    requires at { at < length items.old.items }
    requires fresh { fresh.old < 2 ^ 31 }
    ensures items { OnOk result (items.new.items ≡
        salvaged_items (salvage_action (going_from 0 dead.now) subs.old fresh.old copied.number copied.source (take at items.old.items)) at copied
        items.old.items) }
    ensures entries { OnOk result (subs.new ≡
        subs.old ++ entries_for (salvage_action (going_from 0 dead.now) subs.old fresh.old copied.number copied.source
        (take at items.old.items)) copied.number) }
    ensures fresh { OnOk result (fresh.new ≡
        fresh_after (salvage_action (going_from 0 dead.now) subs.old fresh.old copied.number copied.source (take at items.old.items))
        fresh.old) }
    ensures lost { OnOk result (lost.new.items ≡
        lost.old.items ++ lost_by_salvage (salvage_action (going_from 0 dead.now) subs.old fresh.old copied.number copied.source
        (take at items.old.items)) copied) }
{
    let action = salvage_by_walk(items, subs, at, copied.number, copied.source, dead, fresh)?;
    match action {
        SalvageAction::HasEntry => drop_number(&mut items[at]),
        SalvageAction::GetsEntry(_, _, _) => drop_number(&mut items[at]),
        SalvageAction::GetsPhi => {
            if copied.own {
                lost.push(Loss {
                    what: Lost::Number(copied.number),
                    reason: Reason::WrongPlace,
                })?;
            }
            let phi = salvage_phi(copied, &items[at].origin);
            drop_number(&mut items[at]);
            items.insert(at, phi)?;
        }
    }
    Ok(())
}

/// Salvages the number of the copy at an index, by a walk over the items above it.
fn salvage_by_walk(
    items: &mut Vec<Item>,
    subs: &mut Substitutions,
    at: usize,
    number: DebugNumber,
    source: Reg,
    dead: &[bool],
    fresh: &mut u32,
) -> Result<SalvageAction, AllocError>
    requires at { at < length items.old.items }
    requires fresh { fresh.old < 2 ^ 31 }
    ensures action { IfOk result (λ w.
        w ≡ salvage_action (going_from 0 dead.now) subs.old fresh.old number source (take at items.old.items)) }
    ensures items { IfOk result (λ w.
        items.new.items ≡ above_after w (take at items.old.items) ++ drop at items.old.items) }
    ensures size { length items.new.items ≡ length items.old.items }
    ensures entries { IfOk result (λ w. subs.new ≡ subs.old ++ entries_for w number) }
    ensures fresh { IfOk result (λ w. fresh.new ≡ fresh_after w fresh.old) }
{
    let alloc = *items.allocator();
    let mut lookup = Lookup::Walk;
    salvage(
        alloc,
        items,
        at,
        subs,
        &mut lookup,
        dead,
        number,
        source,
        fresh,
    )
}

/// Removes the numbers from the dead copies of a block, from the last to the first. `dead` has for each item whether it
/// is dead; a block without dead code stays as it is. What is done with is moved to a list of its own, so that a DBG_PHI
/// is put at the end of the items. After an error the items and the substitutions may only be dropped.
pub fn salvage_numbers(
    items: &mut Vec<Item>,
    dead: &[bool],
    subs: &mut Substitutions,
    fresh: &mut u32,
    lost: &mut Vec<Loss>,
) -> Result<(), AllocError>
    requires fresh { fresh.old + length items.old.items < 2 ^ 31 }
    ensures off { OnOk result (record {
      items = items.new.items;
      subs = subs.new;
      fresh = fresh.new;
      lost = lost.new.items;
    } ≡ salvage_down (going_from 0 dead.now) dead.now (length items.old.items)
        (record { items = items.old.items; subs = subs.old; fresh = fresh.old; lost = lost.old.items })) }
    ensures counted { OnOk result (fresh.new ≤ fresh.old + length items.old.items) }
{
    if !some_dead(dead) {
        return Ok(());
    }
    let alloc = *items.allocator();
    let mut done = Vec::with_capacity(alloc, items.len())?;
    let mut at = items.len();
    while at > 0 {
        at -= 1;
        let goes = verdict(dead, at);
        salvage_if(goes, items, dead, at, subs, fresh, lost)?;
        move_from(items, at, &mut done)?;
    }
    *items = reversed(done);
    Ok(())
}

/// Moves the items from an index on to the end of another list, the last one first.
fn move_from(items: &mut Vec<Item>, at: usize, done: &mut Vec<Item>) -> Result<(), AllocError>
    requires { at ≤ length items.old.items }
    ensures long { OnOk result (length items.new.items ≡ at) }
    ensures all { OnOk result
        (items.new.items ++ reverse done.new.items ≡ items.old.items ++ reverse done.old.items) }
{
    'moved: while items.len() > at {
        match items.pop() {
            Some(item) => done.push(item)?,
            None => return Ok(()),
        }
    }
    Ok(())
}

/// The items in reverse order.
fn reversed(items: Vec<Item>) -> Vec<Item>
    ensures { result.items ≡ reverse items.items }
{
    let mut items = items;
    items.reverse();
    items
}

/// Removes the number from the item of an index, if it is dead and a numbered copy.
fn salvage_if(
    goes: bool,
    items: &mut Vec<Item>,
    dead: &[bool],
    at: usize,
    subs: &mut Substitutions,
    fresh: &mut u32,
    lost: &mut Vec<Loss>,
) -> Result<(), AllocError>
    requires at { at < length items.old.items }
    requires fresh { fresh.old < 2 ^ 31 }
    ensures off { OnOk result (record {
      items = items.new.items;
      subs = subs.new;
      fresh = fresh.new;
      lost = lost.new.items;
    } ≡ salvage_at (going_from 0 dead.now) at goes
        (record { items = items.old.items; subs = subs.old; fresh = fresh.old; lost = lost.old.items })) }
    ensures counted { OnOk result (fresh.new ≤ fresh.old + 1) }
    ensures longer { OnOk result (length items.old.items ≤ length items.new.items) }
{
    if goes {
        salvage_item(items, dead, at, subs, fresh, lost)
    } else {
        Ok(())
    }
}

/// Removes the number from the item of an index, if it is a numbered copy.
fn salvage_item(
    items: &mut Vec<Item>,
    dead: &[bool],
    at: usize,
    subs: &mut Substitutions,
    fresh: &mut u32,
    lost: &mut Vec<Loss>,
) -> Result<(), AllocError>
    requires at { at < length items.old.items }
    requires fresh { fresh.old < 2 ^ 31 }
    ensures off { OnOk result (record {
      items = items.new.items;
      subs = subs.new;
      fresh = fresh.new;
      lost = lost.new.items;
    } ≡ salvage_at (going_from 0 dead.now) at true
        (record { items = items.old.items; subs = subs.old; fresh = fresh.old; lost = lost.old.items })) }
    ensures counted { OnOk result (fresh.new ≤ fresh.old + 1) }
    ensures longer { OnOk result (length items.old.items ≤ length items.new.items) }
{
    match numbered_copy(&items[at].kind) {
        Some(copied) => salvage_number(items, subs, at, copied, dead, fresh, lost),
        None => Ok(()),
    }
}

/// Removes the number of code.
fn drop_number(x: &mut Item)
    ensures { x.new ≡ record x.old { kind = without_number x.old.kind } }
{
    if let ItemKind::Code(_, n) = &mut x.kind {
        *n = None;
    }
}

/// The DBG_PHI for a copy with this origin.
fn salvage_phi(copied: Copied, origin: &Origin) -> Item
    ensures { result ≡ salvage_phi copied origin.now }
{
    let place = if copied.own {
        None
    } else {
        Some(Place::Register(copied.source))
    };
    Item {
        kind: ItemKind::Phi(place, copied.number),
        origin: Origin::Before(position_of(*origin)),
        loc: Loc::Absent,
    }
}
