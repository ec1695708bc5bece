//! Fresh debug instruction numbers.

ghost use Rattle.std.specs.Prelude.{◌≡◌, ◌+◌, ◌^◌, ◌<◌, max};
ghost use Rattle.pass_trait.specs.Sizes.{greatest, numbers_of, greatest_number};
ghost use Rattle.pass_salvage.specs.Fresh.{item_numbers, block_numbers, entry_numbers};

use mir_func::block::Block;
use mir_func::debug_substitution::DebugSubstitution;
use mir_func::func::Func;
use mir_func::item::{Item, ItemKind};
use mir_func::variable::MarkValue;
use pass_trait::mir_substitution_crate::substitutions::Substitutions;

/// A fresh debug instruction number: one above the greatest of items, of debug values' operands and of both sides of
/// substitutions, and 1 if there is none. It takes no memory.
pub fn fresh_number(f: &Func, subs: &Substitutions) -> u32
    requires { greatest_number f.now subs.now < 2 ^ 31 }
    ensures { result ≡ greatest_number f.now subs.now + 1 }
{
    let on_items = greatest_in_blocks(f.blocks.as_slice());
    let in_entries = greatest_in_entries(subs.entries());
    greater(on_items, in_entries) + 1
}

/// The greatest number of items and of debug values' operands in blocks, or 0.
pub fn greatest_in_blocks(blocks: &[Block]) -> u32
    ensures { result ≡ greatest (block_numbers blocks.now) }
{
    let mut most: u32 = 0;
    for b in blocks {
        most = greater(most, greatest_in_items(b.items.as_slice()));
    }
    most
}

/// The greatest number of items and of debug values' operands, or 0.
fn greatest_in_items(items: &[Item]) -> u32
    ensures { result ≡ greatest (item_numbers items.now) }
{
    let mut most: u32 = 0;
    for i in items {
        most = greater(most, number_in(&i.kind));
    }
    most
}

/// The number of an item, or of a debug value's operand, or 0.
fn number_in(kind: &ItemKind) -> u32
    ensures { result ≡ greatest (numbers_of kind.now) }
{
    match kind {
        ItemKind::Code(_, Some(n)) => n.number(),
        ItemKind::Phi(_, n) => n.number(),
        ItemKind::Mark(_, MarkValue::Pair(q)) => q.number.number(),
        ItemKind::Code(_, None)
        | ItemKind::Mark(_, MarkValue::Nothing)
        | ItemKind::Mark(_, MarkValue::Constant(_))
        | ItemKind::Mark(_, MarkValue::At(_)) => 0,
    }
}

/// The greatest number on both sides of substitutions, or 0.
pub fn greatest_in_entries(entries: &[DebugSubstitution]) -> u32
    ensures { result ≡ greatest (entry_numbers entries.now) }
{
    let mut most: u32 = 0;
    for e in entries {
        most = greater(most, greater(e.src.number.number(), e.dst.number.number()));
    }
    most
}

/// The greater of two numbers.
fn greater(a: u32, b: u32) -> u32
    ensures { result ≡ max a b }
{
    if a < b { b } else { a }
}
