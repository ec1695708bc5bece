//! Insertion of kills at the ends of bypassed chains.

ghost use Rattle.std.specs.Prelude.{◌≡◌, ◌++◌, ℕ, List, map, IfOk, OnOk, nat_eq};
ghost use Rattle.std.specs.HashSet.{contains};
ghost use Rattle.fold_targets.specs.Leads.{lead};
ghost use Rattle.fold_targets.specs.Ends.{told, end_in};
ghost use Rattle.fold_rule_proof.specs.Kills.{once, with_kills};
ghost use Rattle.fold_undef.specs.Bypassed.{end_past};
ghost use Rattle.fold_undef.specs.Kill.{kill_item, kills_in};
ghost use Rattle.fold_undef.specs.steps.Gathered.{kills_at, kills_to, with_kills_of};

use crate::bypassed::{JumpChains, end_past};
use crate::kill::{Kill, kill_item, kill_of};
use crate::seen::Seen;
use base_ids::function_ids::BlockId;
use base_list::List;
use mir_func::block::Block;
use mir_func::item::Item;
use std::alloc::{AllocError, Global};
use std::collections::HashMap;

/// Inserts kills at the starts of folded blocks: at the start of each block, for the debug items of the bypassed blocks
/// whose chains end there, without duplicates and in the order of the text. After an error, some of them.
pub fn put_kills(
    alloc: Global,
    before: &[Block],
    ways: &JumpChains,
    after: &mut Vec<Block>,
) -> Result<(), AllocError>
    requires { (n : ℕ) → told ways.now.leads n ≡ lead before.now n }
    ensures { OnOk result (after.new.items
        ≡ map (with_kills (end_in ways.now.ends) (contains nat_eq ways.now.reached) before.now) after.old.items) }
{
    let kills = kills_by_end(alloc, before, ways)?;
    put_all(alloc, &kills, after)
}

/// The kills for each end, by its number, in the order of the text, with duplicates.
fn kills_by_end(
    alloc: Global,
    blocks: &[Block],
    ways: &JumpChains,
) -> Result<HashMap<u32, List<Kill>>, AllocError>
    ensures { IfOk result (λ m. (e : ℕ) → kills_at m e ≡ kills_to
        (end_past (end_in ways.now.ends) (contains nat_eq ways.now.reached) (told ways.now.leads)) e blocks.now) }
{
    let mut kills = HashMap::new(alloc);
    for b in blocks {
        if let Some(end) = end_past(ways, b.id) {
            push_kills(alloc, &mut kills, end.number(), b.items.as_slice())?;
        }
    }
    Ok(kills)
}

/// Adds the kills for a block's items to those for its end.
fn push_kills(
    alloc: Global,
    kills: &mut HashMap<u32, List<Kill>>,
    end: u32,
    items: &[Item],
) -> Result<(), AllocError>
    ensures same { OnOk result (kills_at kills.new end ≡ kills_at kills.old end ++ kills_in items.now) }
    ensures others { OnOk result ((e : ℕ) → (end ≡ e → ⊥) → kills_at kills.new e ≡ kills_at kills.old e) }
{
    let mut all = match kills.remove(&end) {
        Some(so_far) => so_far,
        None => List::new(alloc),
    };
    push_all(items, &mut all)?;
    kills.insert(end, all)?;
    Ok(())
}

/// Appends the kills for items.
fn push_all(items: &[Item], kills: &mut List<Kill>) -> Result<(), AllocError>
    ensures { OnOk result (kills.new ≡ kills.old ++ kills_in items.now) }
{
    for i in items {
        if let Some(kill) = kill_of(i) {
            kills.push(kill)?;
        }
    }
    Ok(())
}

/// Inserts kills at the start of each block.
fn put_all(
    alloc: Global,
    kills: &HashMap<u32, List<Kill>>,
    blocks: &mut Vec<Block>,
) -> Result<(), AllocError>
    ensures { OnOk result (blocks.new.items ≡ map (with_kills_of (kills_at kills.now)) blocks.old.items) }
{
    for b in blocks.iter_mut() {
        put_at(alloc, kills, b.id, &mut b.items.items)?;
    }
    Ok(())
}

/// Inserts the kills for a block before its items.
fn put_at(
    alloc: Global,
    kills: &HashMap<u32, List<Kill>>,
    block: BlockId,
    items: &mut Vec<Item>,
) -> Result<(), AllocError>
    ensures { OnOk result (items.new.items
        ≡ once (map (kill_item block) (kills_at kills.now block)) ++ items.old.items) }
{
    if let Some(list) = kills.get(&block.number()) {
        let mut all = each_once(alloc, block, list.as_slice())?;
        all.append(items)?;
        *items = all;
    }
    Ok(())
}

/// Kills as items of a block, without duplicates; the first of each is kept.
fn each_once(alloc: Global, block: BlockId, kills: &[Kill]) -> Result<Vec<Item>, AllocError>
    ensures { IfOk result (λ items. items.items ≡ once (map (kill_item block) kills.now)) }
{
    let mut seen = Seen::new(alloc);
    let mut items = Vec::new(alloc);
    for kill in kills {
        if seen.add(kill)? {
            items.push(kill_item(block, *kill))?;
        }
    }
    Ok(items)
}
