//! The outgoing edges of blocks.

ghost use Rattle.std.specs.Prelude.{◌≡◌, ℕ, IfOk, nat_eq};
ghost use Rattle.std.specs.Option.{option_map};
ghost use Rattle.std.specs.HashMap.{get};
ghost use Rattle.fold_targets.specs.Ends.{end_in};
ghost use Rattle.fold_rule.specs.Tails.{first_of, else_way, ways_of};
ghost use Rattle.fold_rule.specs.Reached.{ways_in};
ghost use Rattle.fold_rule.specs.steps.Walked.{ended};

use base_ids::function_ids::BlockId;
use fold_targets::leads::always_to;
use mir_func::block::Block;
use mir_func::exit::Exit;
use mir_func::item::Item;
use std::alloc::{AllocError, Global};
use std::collections::HashMap;

/// The outgoing edges of a block: of its conditional branch, and otherwise.
#[derive(Clone, Copy)]
pub struct Ways {
    /// Where the conditional branch goes.
    pub branch: Option<BlockId>,
    /// Where control goes otherwise.
    pub onward: Option<BlockId>,
}

/// The outgoing edges of each block, by its number, each to the end of its chain.
pub fn ways_to_ends(
    alloc: Global,
    blocks: &[Block],
    ends: &HashMap<u32, u32>,
) -> Result<HashMap<u32, Ways>, AllocError>
    ensures { IfOk result (λ m. (n : ℕ) → get nat_eq m n
        ≡ option_map (ended (end_in ends.now)) (ways_in blocks.now n)) }
{
    let mut ways = HashMap::new(alloc);
    let mut next = None;
    let mut rest = blocks;
    while let Some((b, before)) = rest.split_last() {
        let to = ended(ends, &ways_of(b.items.as_slice(), next));
        ways.insert(b.id.number(), to)?;
        next = Some(b.id);
        rest = before;
    }
    Ok(ways)
}

/// The edges, each to the end of its chain.
fn ended(ends: &HashMap<u32, u32>, ways: &Ways) -> Ways
    ensures { result ≡ ended (end_in ends.now) ways.now }
{
    Ways {
        branch: some_end(ends, ways.branch),
        onward: some_end(ends, ways.onward),
    }
}

fn some_end(ends: &HashMap<u32, u32>, block: Option<BlockId>) -> Option<BlockId>
    ensures { result ≡ option_map (end_in ends.now) block }
{
    match block {
        Some(n) => Some(end_of(ends, n)),
        None => None,
    }
}

/// The outgoing edges of a block with these items; without a final terminator control falls to the block below.
fn ways_of(items: &[Item], fall: Option<BlockId>) -> Ways
    ensures { result ≡ ways_of items.now fall }
{
    let mut rest = items;
    while let Some((i, tail)) = rest.split_first() {
        match i.kind.exit() {
            Exit::Onward => rest = tail,
            Exit::Perhaps(n) => {
                return Ways {
                    branch: Some(n),
                    onward: way_after(tail, fall),
                };
            }
            Exit::Always(n) => {
                return Ways {
                    branch: None,
                    onward: Some(n),
                };
            }
            Exit::Final => {
                return Ways {
                    branch: None,
                    onward: None,
                };
            }
        }
    }
    Ways {
        branch: None,
        onward: fall,
    }
}

/// Where control goes when a conditional branch isn't taken, with these items below it.
fn way_after(tail: &[Item], fall: Option<BlockId>) -> Option<BlockId>
    ensures { result ≡ else_way (first_of tail.now) fall }
{
    match tail {
        [] => fall,
        [j, ..] => always_to(j.kind.exit()),
    }
}

/// The end of a block's chain.
pub fn end_of(ends: &HashMap<u32, u32>, block: BlockId) -> BlockId
    ensures { result ≡ end_in ends.now block }
{
    let number = block.number();
    BlockId(ends.get(&number).copied().unwrap_or(number))
}
