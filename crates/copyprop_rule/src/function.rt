//! Removal of redundant copies from a function.

ghost use Rattle.std.specs.Prelude.{◌≡◌, ◌+◌, ◌<◌, ◌^◌, [], length, OnOk, IfOk};
ghost use Rattle.mir_func.specs.Sound.{items_of};
ghost use Rattle.pass_trait.specs.Sizes.{greatest_number, item_count};
ghost use Rattle.copyprop_block.specs.Copied.{over_blocks};
ghost use Rattle.copyprop_rule.specs.Rule.{salvaged_function, salvaged_entries};

use copyprop_block::copies::copy_items;
use copyprop_block::pass_salvage_crate::fresh::fresh_number;
use mir_func::block::{Block, Blocks, copy_blocks};
use mir_func::func::Func;
use mir_substitution::substitutions::Substitutions;
use std::alloc::{AllocError, Global};

/// Removes the redundant copies from blocks, in the order of the text.
fn copy_in_blocks(
    alloc: Global,
    blocks: &mut Vec<Block>,
    subs: &mut Substitutions,
    fresh: &mut u32,
) -> Result<(), AllocError>
    requires fresh { fresh.old + length (items_of blocks.old.items) < 2 ^ 31 }
    ensures blocks { OnOk result (blocks.new.items ≡
        (over_blocks (record { blocks = []; subs = subs.old; fresh = fresh.old }) blocks.old.items).blocks) }
    ensures entries { OnOk result (subs.new ≡
        (over_blocks (record { blocks = []; subs = subs.old; fresh = fresh.old }) blocks.old.items).subs) }
{
    for b in blocks.iter_mut() {
        copy_items(alloc, &mut b.items.items, subs, fresh)?;
    }
    Ok(())
}

/// The blocks of a function without its redundant copies, with their numbers salvaged by DBG_PHIs and substitutions.
/// After an error the substitutions may only be dropped. The time is linear in the items, except for the searches of
/// `choose_way`.
pub fn blocks_without_copies(
    alloc: Global,
    f: &Func,
    subs: &mut Substitutions,
) -> Result<Blocks, AllocError>
    requires { greatest_number f.now subs.old + item_count f.now + 1 < 2 ^ 31 }
    ensures blocks { IfOk result (λ blocks. blocks ≡ (salvaged_function f.now subs.old).blocks) }
    ensures entries { OnOk result (subs.new ≡ salvaged_entries f.now subs.old) }
{
    let mut fresh = fresh_number(f, subs);
    let mut blocks = copy_blocks(alloc, f.blocks.as_slice())?;
    copy_in_blocks(alloc, &mut blocks.items, subs, &mut fresh)?;
    Ok(blocks)
}
