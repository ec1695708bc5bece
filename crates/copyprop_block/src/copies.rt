//! Removal of redundant copies from a block, with the salvage of their numbers.

ghost use Rattle.std.specs.Prelude.{◌≡◌, ◌+◌, ◌<◌, ◌≤◌, ◌^◌, [], List, length, take, slice_index_or, IfOk, OnOk};
ghost use Rattle.mir_func.specs.declared.item.Item.{Item};
ghost use Rattle.copyprop_block.specs.declared.roots.Root.{Root};
ghost use Rattle.pass_salvage.specs.SalvageAction.{salvage_action};
ghost use Rattle.pass_salvage.specs.Lookup.{IsLookupOf};
ghost use Rattle.copyprop_block.specs.Copied.{renamed_item, fate_of, goes_with, roots_with, salvaged, next_item};
ghost use Rattle.copyprop_block.specs.Copied.{over_items, at_block};
ghost use Rattle.copyprop_block.specs.Next.{IsCarried, Stands};

use crate::roots::{Root, known_source, learn, rename};
use base_ids::function_ids::DebugNumber;
use mir_func::item::{Item, ItemKind};
use pass_salvage::above::Above;
use pass_salvage::lookup::Lookup;
use pass_salvage::mir_substitution_crate::substitutions::Substitutions;
use pass_salvage::salvage::{put_phi, salvage};
use pass_salvage::salvage_action::SalvageAction;
use rv64_instr::reg::Reg;
use std::alloc::{AllocError, Global};

/// What happens to an item.
#[derive(Clone, Copy, Debug, PartialEq, Eq)]
pub enum CopyAction {
    /// It is kept.
    Stays,
    /// It is a redundant copy without a number, and is removed.
    Goes,
    /// It is a redundant copy of this register, with this number, and is removed.
    GoesWith(DebugNumber, Reg),
}

/// Replaces the explicit uses of code by their roots.
fn rename_item(x: &mut Item, roots: &[Root])
    ensures { x.new ≡ renamed_item roots.now x.old }
{
    if let ItemKind::Code(i, _) = &mut x.kind {
        rename(i, roots);
    }
}

/// What happens to an item whose uses are replaced already.
fn fate_of(kind: &ItemKind, roots: &[Root]) -> CopyAction
    ensures { result ≡ fate_of roots.now kind.now }
{
    match kind {
        ItemKind::Code(i, n) => match known_source(i, roots) {
            Some(s) => goes_by(n, s),
            None => CopyAction::Stays,
        },
        ItemKind::Mark(_, _) | ItemKind::Phi(_, _) => CopyAction::Stays,
    }
}

/// How a redundant copy is removed: with a number or without.
fn goes_by(number: &Option<DebugNumber>, source: Reg) -> CopyAction
    ensures { result ≡ goes_with number.now source }
{
    match number {
        Some(k) => CopyAction::GoesWith(*k, source),
        None => CopyAction::Goes,
    }
}

/// Updates the available copies after an item that is kept.
fn learn_item(kind: &ItemKind, roots: &mut Vec<Root>) -> Result<(), AllocError>
    ensures { OnOk result (roots.new.items ≡ roots_with kind.now roots.old.items) }
{
    match kind {
        ItemKind::Code(i, _) => learn(i, roots),
        ItemKind::Mark(_, _) | ItemKind::Phi(_, _) => Ok(()),
    }
}

/// One more item: the first `kept` items of the list are the result for those before it. Returns how many there are
/// after it.
fn next_item(
    alloc: Global,
    items: &mut Vec<Item>,
    kept: usize,
    at: usize,
    roots: &mut Vec<Root>,
    subs: &mut Substitutions,
    lookup: &mut Lookup,
    fresh: &mut u32,
) -> Result<usize, AllocError>
    requires within { kept ≤ at }
    requires at { at < length items.old.items }
    requires carried { IsCarried lookup.old subs.old fresh.old (take kept items.old.items) }
    ensures stands { IfOk result (λ more. (x : Item) → x ≡ slice_index_or items.old.items at x →
        Stands (next_item (record {
          done = take kept items.old.items;
          roots = roots.old.items;
          subs = subs.old;
          fresh = fresh.old;
        }) x)
        more (at + 1) items.new.items items.old.items roots.new.items subs.new fresh.new) }
    ensures lookup { IfOk result (λ more. IsLookupOf lookup.new subs.new (take more items.new.items)) }
    ensures counted { OnOk result (fresh.new ≤ fresh.old + 1) }
{
    rename_item(&mut items[at], roots.as_slice());
    match fate_of(&items[at].kind, roots.as_slice()) {
        CopyAction::Stays => {
            learn_item(&items[at].kind, roots)?;
            lookup.push(&items[at].kind, kept, subs)?;
            items.swap(kept, at);
            Ok(kept + 1)
        }
        CopyAction::Goes => Ok(kept),
        CopyAction::GoesWith(number, source) => take_out(
            alloc, items, kept, at, number, source, subs, lookup, fresh,
        ),
    }
}

/// Removes a redundant copy of `source` with a number, and salvages it.
fn take_out(
    alloc: Global,
    items: &mut Vec<Item>,
    kept: usize,
    at: usize,
    number: DebugNumber,
    source: Reg,
    subs: &mut Substitutions,
    lookup: &mut Lookup,
    fresh: &mut u32,
) -> Result<usize, AllocError>
    requires within { kept ≤ at }
    requires at { at < length items.old.items }
    requires carried { IsCarried lookup.old subs.old fresh.old (take kept items.old.items) }
    ensures stands { IfOk result (λ more. (x : Item) (roots : List Root) → x ≡ slice_index_or items.old.items at x →
        Stands (salvaged (record {
          done = take kept items.old.items;
          roots = roots;
          subs = subs.old;
          fresh =
              fresh.old;
        }) number source x.origin
        (salvage_action [] subs.old fresh.old number source (take kept items.old.items)))
        more (at + 1) items.new.items items.old.items roots subs.new fresh.new) }
    ensures lookup { IfOk result (λ more. IsLookupOf lookup.new subs.new (take more items.new.items)) }
    ensures counted { OnOk result (fresh.new ≤ fresh.old + 1) }
{
    let action = salvage(alloc, items, kept, subs, lookup, &[], number, source, fresh)?;
    match action {
        SalvageAction::HasEntry => Ok(kept),
        SalvageAction::GetsEntry(_, _, _) => Ok(kept),
        SalvageAction::GetsPhi => {
            put_phi(&mut items[at], number, source);
            lookup.push(&items[at].kind, kept, subs)?;
            items.swap(kept, at);
            Ok(kept + 1)
        }
    }
}

/// Removes the redundant copies from a block's items, and replaces the explicit uses of the others by their roots.
pub fn copy_items(
    alloc: Global,
    items: &mut Vec<Item>,
    subs: &mut Substitutions,
    fresh: &mut u32,
) -> Result<(), AllocError>
    requires fresh { fresh.old + length items.old.items < 2 ^ 31 }
    ensures items { OnOk result (items.new.items ≡ (over_items (at_block subs.old fresh.old) items.old.items).done) }
    ensures entries { OnOk result (subs.new ≡ (over_items (at_block subs.old fresh.old) items.old.items).subs) }
    ensures fresh { OnOk result (fresh.new ≡ (over_items (at_block subs.old fresh.old) items.old.items).fresh) }
    ensures counted { OnOk result (fresh.new ≤ fresh.old + length items.old.items) }
{
    let mut roots = Vec::new(alloc);
    let mut lookup = Lookup::Index(Above::new(alloc));
    let mut kept = 0;
    for at in 0..items.len() {
        kept = next_item(alloc, items, kept, at, &mut roots, subs, &mut lookup, fresh)?;
    }
    items.truncate(kept);
    Ok(())
}
