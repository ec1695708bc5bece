//! The size limit of a function.

ghost use Rattle.std.specs.Prelude.{◌≡◌, ◌+◌, ◌<◌, ◌↔◌, IfSome, IsNone, IsTrue, sum_by};
ghost use Rattle.rv64_instr.specs.Row.{Row};
ghost use Rattle.rv64_instr.specs.Decoded.{Shows};
ghost use Rattle.emit_code.specs.Counts.{MAX_WORDS, row_words, kind_count, item_count, count_of};

use mir_func::block::Block;
use mir_func::item::{Item, ItemKind};
use rv64_instr::decoded::Decoded;

/// The limit on a function's words, exclusive.
const MAX_WORDS: u32 = 262_144;

/// Whether the items of these blocks are below the limit. Conditional branches and calls count twice.
pub fn are_few(blocks: &[Block]) -> bool
    ensures { IsTrue result ↔ (count_of blocks.now < MAX_WORDS) }
{
    let mut room = MAX_WORDS - 1;
    for b in blocks {
        match room_after(b.items.as_slice(), room) {
            Some(left) => room = left,
            None => return false,
        }
    }
    true
}

/// What is left of the limit after these items, and None if it isn't enough.
fn room_after(items: &[Item], room: u32) -> Option<u32>
    ensures some { IfSome result (λ left. left + sum_by item_count items.now ≡ room) }
    ensures none { IsNone result → room < sum_by item_count items.now }
{
    let mut left = room;
    for i in items {
        let count = kind_count(&i.kind);
        if left < count {
            return None;
        }
        left -= count;
    }
    Some(left)
}

fn kind_count(kind: &ItemKind) -> u32
    ensures { result ≡ kind_count kind.now }
{
    match kind {
        ItemKind::Code(i, _) => row_words(&i.decoded()),
        ItemKind::Mark(_, _) | ItemKind::Phi(_, _) => 1,
    }
}

fn row_words(decoded: &Decoded) -> u32
    ensures { (row : Row) → Shows decoded.now row → result ≡ row_words row }
{
    match *decoded {
        Decoded::Branches(_, _, _, _) => 2,
        Decoded::Calls(_) | Decoded::Returns(_) => { if decoded.has_site() { 2 } else { 1 } }
        Decoded::Loads(_, _, _, _)
        | Decoded::Stores(_, _, _, _)
        | Decoded::LoadsSlot(_, _)
        | Decoded::StoresSlot(_, _)
        | Decoded::Addresses(_, _, _)
        | Decoded::Fixes(_, _)
        | Decoded::Moves(_, _)
        | Decoded::Sets(_, _, _, _)
        | Decoded::Jumps(_) => 1,
    }
}
