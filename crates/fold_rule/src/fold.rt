//! Branch folding of a function's blocks.

ghost use Rattle.std.specs.Prelude.{◌≡◌, IfOk, OnOk, nat_eq};
ghost use Rattle.std.specs.HashSet.{contains};
ghost use Rattle.mir_func.specs.Sound.{AreApart, ids_of};
ghost use Rattle.fold_targets.specs.Ends.{end_in};
ghost use Rattle.fold_rule.specs.Rule.{folded_block, folded_blocks, AreFolded};

use crate::reached::reached;
use crate::tail::{BlockPlacement, rewrite};
use base_ids::function_ids::BlockId;
use fold_targets::ends::ends;
use fold_targets::leads::leads;
use mir_func::block::Block;
use mir_func::position::Pos;
use std::alloc::{AllocError, Global};
use std::collections::{HashMap, HashSet};

/// Folds the blocks of a function; their numbers must be distinct.
pub fn fold_blocks(alloc: Global, blocks: &mut Vec<Block>) -> Result<(), AllocError>
    requires { AreApart (ids_of blocks.old.items) }
    ensures { OnOk result (AreFolded blocks.old.items blocks.new.items) }
{
    let leads = leads(alloc, blocks.as_slice())?;
    let ends = ends(alloc, &leads)?;
    let stays = reached(alloc, blocks.as_slice(), &ends)?;
    write_anew(alloc, blocks, &ends, &stays)
}

/// Rewrites the terminators of the kept blocks, and deletes the others.
fn write_anew(
    alloc: Global,
    blocks: &mut Vec<Block>,
    ends: &HashMap<u32, u32>,
    stays: &HashSet<u32>,
) -> Result<(), AllocError>
    ensures { OnOk result (blocks.new.items
        ≡ folded_blocks (end_in ends.now) (contains nat_eq stays.now) blocks.old.items) }
{
    let mut done = Vec::new(alloc);
    let mut next = None;
    let mut fall = None;
    while let Some(b) = blocks.pop() {
        let id = b.id;
        if stays.contains(&id.number()) {
            done.push(folded_block(alloc, b, ends, next, fall)?)?;
            next = Some(id);
        }
        fall = Some(id);
    }
    done.reverse();
    *blocks = done;
    Ok(())
}

/// The block with its terminators rewritten; `next` comes next among the kept blocks, and `fall` among all.
fn folded_block(
    alloc: Global,
    b: Block,
    ends: &HashMap<u32, u32>,
    next: Option<BlockId>,
    fall: Option<BlockId>,
) -> Result<Block, AllocError>
    ensures { IfOk result (λ c. c ≡ folded_block (end_in ends.now) next fall b) }
{
    let mut block = b;
    let at = BlockPlacement {
        next,
        fall,
        source_end: Pos {
            block: block.id,
            item: block.source_end,
        },
    };
    rewrite(alloc, &mut block.items.items, ends, &at)?;
    Ok(block)
}
