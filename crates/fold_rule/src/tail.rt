//! The terminators of blocks, rewritten.

ghost use Rattle.std.specs.Prelude.{◌≡◌, ◌≤◌, ◌++◌, length, option_to_list, IfOk, OnOk};
ghost use Rattle.fold_targets.specs.Ends.{end_in};
ghost use Rattle.fold_rule.specs.Tails.{
  else_way,
  is_number,
  if_needed,
  jump_at_end,
  jump_for_branch,
  plain_tail,
  branch_tail,
  branch_tail_to,
  rewritten,
};
ghost use Rattle.fold_rule.specs.steps.Onward.{onward_count};

use crate::turned::{made_jump, send, turn};
use crate::ways::end_of;
use base_ids::function_ids::BlockId;
use fold_targets::leads::always_to;
use mir_func::exit::Exit;
use mir_func::item::Item;
use mir_func::location::Loc;
use mir_func::position::{Origin, Pos};
use std::alloc::{AllocError, Global};
use std::collections::HashMap;

/// What a block's terminators depend on: the next block among the kept ones and among all, and its silent position.
#[derive(Drop)]
pub struct BlockPlacement {
    /// The next block among those that are kept.
    pub next: Option<BlockId>,
    /// The next block, to which control falls.
    pub fall: Option<BlockId>,
    /// The block's silent position.
    pub source_end: Pos,
}

/// Rewrites the terminators of a block's items.
pub fn rewrite(
    alloc: Global,
    items: &mut Vec<Item>,
    ends: &HashMap<u32, u32>,
    at: &BlockPlacement,
) -> Result<(), AllocError>
    ensures { OnOk result (items.new.items
        ≡ rewritten (end_in ends.now) at.now.next at.now.fall at.now.source_end items.old.items) }
{
    let count = onward_count(items.as_slice());
    let mut tail = items.split_off(count)?.into_iter();
    match tail.next() {
        None => push_plain(alloc, items, ends, at, None, at.fall),
        Some(x) => match x.kind.exit() {
            Exit::Perhaps(n) => push_branch(alloc, items, ends, at, x, tail.next(), n),
            Exit::Always(n) => push_plain(alloc, items, ends, at, Some(x), Some(n)),
            Exit::Onward | Exit::Final => push_plain(alloc, items, ends, at, Some(x), None),
        },
    }
}

/// How many items are before the first one at which control may leave.
fn onward_count(items: &[Item]) -> usize
    ensures count { result ≡ onward_count items.now }
    ensures few { result ≤ length items.now }
{
    let mut count = 0;
    let mut rest = items;
    while let Some((i, tail)) = rest.split_first() {
        match i.kind.exit() {
            Exit::Onward => {
                count += 1;
                rest = tail;
            }
            Exit::Perhaps(_) | Exit::Always(_) | Exit::Final => return count,
        }
    }
    count
}

/// Appends the terminators of a block without a conditional branch.
fn push_plain(
    alloc: Global,
    items: &mut Vec<Item>,
    ends: &HashMap<u32, u32>,
    at: &BlockPlacement,
    rest: Option<Item>,
    to: Option<BlockId>,
) -> Result<(), AllocError>
    ensures { OnOk result (items.new.items ≡ items.old.items
        ++ plain_tail (end_in ends.now) at.now.next at.now.fall at.now.source_end rest to) }
{
    match to {
        Some(n) => push_jump(alloc, items, at, rest, end_of(ends, n)),
        None => push_some(items, rest),
    }
}

/// Appends the jump to a block at the end of a block, unless its target comes next.
fn push_jump(
    alloc: Global,
    items: &mut Vec<Item>,
    at: &BlockPlacement,
    rest: Option<Item>,
    block: BlockId,
) -> Result<(), AllocError>
    ensures { OnOk result (items.new.items
        ≡ items.old.items ++ if_needed at.now.next block (jump_at_end at.now.source_end rest block)) }
{
    let jump = jump_at_end(alloc, at, rest, block)?;
    push_if_needed(items, at, block, jump)
}

/// Appends a jump to a block, unless that block comes next.
fn push_if_needed(
    items: &mut Vec<Item>,
    at: &BlockPlacement,
    block: BlockId,
    jump: Item,
) -> Result<(), AllocError>
    ensures { OnOk result (items.new.items ≡ items.old.items ++ if_needed at.now.next block jump) }
{
    if !is_number(at.next, block) {
        items.push(jump)?;
    }
    Ok(())
}

/// Appends an item, if there is one.
fn push_some(items: &mut Vec<Item>, item: Option<Item>) -> Result<(), AllocError>
    ensures { OnOk result (items.new.items ≡ items.old.items ++ option_to_list item) }
{
    if let Some(i) = item {
        items.push(i)?;
    }
    Ok(())
}

/// Appends the terminators of a block with a conditional branch, from the branch on.
fn push_branch(
    alloc: Global,
    items: &mut Vec<Item>,
    ends: &HashMap<u32, u32>,
    at: &BlockPlacement,
    branch: Item,
    rest: Option<Item>,
    target: BlockId,
) -> Result<(), AllocError>
    ensures { OnOk result (items.new.items ≡ items.old.items
        ++ branch_tail_to (end_in ends.now) at.now.next at.now.fall at.now.source_end branch rest target
        (else_way rest at.now.fall)) }
{
    match else_way(&rest, at.fall) {
        Some(m) => {
            let a = end_of(ends, target);
            let b = end_of(ends, m);
            push_branch_to(alloc, items, at, branch, rest, a, b)
        }
        None => {
            items.push(branch)?;
            Ok(())
        }
    }
}

/// Appends the terminators of a block with a conditional branch whose edges end at two blocks, from the branch on.
fn push_branch_to(
    alloc: Global,
    items: &mut Vec<Item>,
    at: &BlockPlacement,
    branch: Item,
    rest: Option<Item>,
    a: BlockId,
    b: BlockId,
) -> Result<(), AllocError>
    ensures { OnOk result (items.new.items ≡ items.old.items ++ branch_tail at.now.next at.now.source_end branch rest a b) }
{
    if a.number() == b.number() {
        let jump = jump_for_branch(alloc, at, &branch, rest, b)?;
        return push_if_needed(items, at, b, jump);
    }
    let mut branch = branch;
    if is_number(at.next, b) {
        send(&mut branch, a);
        items.push(branch)?;
        return Ok(());
    }
    if is_number(at.next, a) {
        turn(&mut branch, b);
        items.push(branch)?;
        return Ok(());
    }
    send(&mut branch, a);
    items.push(branch)?;
    items.push(jump_at_end(alloc, at, rest, b)?)?;
    Ok(())
}

/// The jump to a block at the end: the old jump with a new target, or a new one if there is none.
fn jump_at_end(
    alloc: Global,
    at: &BlockPlacement,
    rest: Option<Item>,
    block: BlockId,
) -> Result<Item, AllocError>
    ensures { IfOk result (λ j. j ≡ jump_at_end at.now.source_end rest block) }
{
    match rest {
        None => made_jump(alloc, block, Origin::Before(at.source_end), Loc::Absent),
        Some(j) => {
            let mut jump = j;
            send(&mut jump, block);
            Ok(jump)
        }
    }
}

/// The jump to a block in the position of a removed conditional branch.
fn jump_for_branch(
    alloc: Global,
    at: &BlockPlacement,
    branch: &Item,
    rest: Option<Item>,
    block: BlockId,
) -> Result<Item, AllocError>
    ensures { IfOk result (λ j. j ≡ jump_for_branch at.now.source_end branch.now rest block) }
{
    let mut jump = jump_at_end(alloc, at, rest, block)?;
    jump.origin = branch.origin;
    jump.loc = branch.loc;
    Ok(jump)
}

/// Where control goes when a branch isn't taken: where the next item jumps, or to the block below if there is no next
/// item.
fn else_way(rest: &Option<Item>, fall: Option<BlockId>) -> Option<BlockId>
    ensures { result ≡ else_way rest.now fall }
{
    match rest {
        None => fall,
        Some(j) => always_to(j.kind.exit()),
    }
}

/// Whether the optional number is this one.
fn is_number(next: Option<BlockId>, block: BlockId) -> bool
    ensures { result ≡ is_number next block }
{
    match next {
        Some(n) => n.number() == block.number(),
        None => false,
    }
}
