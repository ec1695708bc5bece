//! Checks of a whole body, at the line that closes its function.

ghost use Rattle.std.specs.Prelude.{◌≡◌};
ghost use Rattle.mir_func.specs.declared.exit.Exit.{Exit};
ghost use Rattle.read_body.specs.Closing.{goes_to_one_of, item_goes_to, block_goes_to, blocks_go_to, all_met};

use crate::first_use_order::FirstUseOrder;
use base_ids::function_ids::SlotId;
use mir_func::block::Block;
use mir_func::exit::Exit;
use mir_func::item::Item;

/// Whether the branch target of an exit, if it has one, is one of these blocks.
fn goes_to_one_of(ids: &FirstUseOrder, exit: Exit) -> bool
    ensures { result ≡ goes_to_one_of ids.now exit }
{
    match exit {
        Exit::Perhaps(n) | Exit::Always(n) => ids.has(u64::from(n.number())),
        Exit::Onward | Exit::Final => true,
    }
}

fn item_goes_to(ids: &FirstUseOrder, item: &Item) -> bool
    ensures { result ≡ item_goes_to ids.now item.now }
{
    goes_to_one_of(ids, item.kind.exit())
}

fn block_goes_to(ids: &FirstUseOrder, block: &Block) -> bool
    ensures { result ≡ block_goes_to ids.now block.now }
{
    block
        .items
        .as_slice()
        .iter()
        .all(|item| item_goes_to(ids, item))
}

/// Whether each branch target in these blocks is one of these blocks.
pub fn blocks_go_to(ids: &FirstUseOrder, blocks: &[Block]) -> bool
    ensures { result ≡ blocks_go_to ids.now blocks.now }
{
    blocks.iter().all(|block| block_goes_to(ids, block))
}

/// Whether each stack entry that is named is declared.
pub fn all_met(declared: &FirstUseOrder, named: &[SlotId]) -> bool
    ensures { result ≡ all_met declared.now named.now }
{
    named.iter().all(|id| declared.has(u64::from(id.number())))
}
