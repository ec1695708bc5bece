//! Which blocks are reachable.

ghost use Rattle.std.specs.Prelude.{◌≡◌, ◌++◌, ◌||◌, ◌↔◌, ℕ, IfOk, OnOk, IsTrue, nat_eq};
ghost use Rattle.std.specs.HashSet.{contains};
ghost use Rattle.fold_targets.specs.Leads.{first_id};
ghost use Rattle.fold_targets.specs.Ends.{end_in};
ghost use Rattle.fold_rule.specs.Tails.{is_number};
ghost use Rattle.fold_rule.specs.Reached.{Reached};
ghost use Rattle.fold_rule.specs.steps.Walked.{fresh};

use crate::ways::ways_to_ends;
use base_ids::function_ids::BlockId;
use mir_func::block::Block;
use std::alloc::{AllocError, Global};
use std::collections::{HashMap, HashSet};

/// The numbers of the blocks that are reachable from the first one, if each edge goes to the end of its chain.
pub fn reached(
    alloc: Global,
    blocks: &[Block],
    ends: &HashMap<u32, u32>,
) -> Result<HashSet<u32>, AllocError>
    ensures { IfOk result (λ stays. (n : ℕ) → IsTrue (contains nat_eq stays n)
        ↔ Reached blocks.now (end_in ends.now) n) }
{
    let ways = ways_to_ends(alloc, blocks, ends)?;
    let mut seen = HashSet::new(alloc);
    let mut waiting = Vec::new(alloc);
    visit(&mut seen, &mut waiting, first_id(blocks))?;
    while let Some(n) = waiting.pop() {
        if let Some(to) = ways.get(&n) {
            visit(&mut seen, &mut waiting, to.branch)?;
            visit(&mut seen, &mut waiting, to.onward)?;
        }
    }
    Ok(seen)
}

/// The numbers of the blocks that are reachable from the first one, before folding.
pub fn reached_before(alloc: Global, blocks: &[Block]) -> Result<HashSet<u32>, AllocError>
    ensures { IfOk result (λ was. (n : ℕ) → IsTrue (contains nat_eq was n) ↔ Reached blocks.now (λ m. m) n) }
{
    let own_ends = HashMap::new(alloc);
    reached(alloc, blocks, &own_ends)
}

/// Marks a block as seen. If it is seen for the first time, it waits to be visited.
fn visit(
    seen: &mut HashSet<u32>,
    waiting: &mut Vec<u32>,
    block: Option<BlockId>,
) -> Result<(), AllocError>
    ensures seen { OnOk result ((q : ℕ) → contains nat_eq seen.new q
        ≡ (contains nat_eq seen.old q || is_number block q)) }
    ensures waiting { OnOk result (waiting.new.items ≡ waiting.old.items ++ fresh (contains nat_eq seen.old) block) }
{
    if let Some(b) = block {
        let n = b.number();
        if seen.insert(n)? {
            waiting.push(n)?;
        }
    }
    Ok(())
}

/// The number of the first block.
fn first_id(blocks: &[Block]) -> Option<BlockId>
    ensures { result ≡ first_id blocks.now }
{
    match blocks {
        [] => None,
        [b, ..] => Some(b.id),
    }
}
