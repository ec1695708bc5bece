//! Facts about blocks that follow from the invariants of types.

ghost use Rattle.std.specs.Prelude.{◌<◌, ◌^◌, All};
ghost use Rattle.mir_func.specs.Sound.{AllItems, HasForm};

use mir_func::block::Block;
use mir_func::item::{Item, ItemKind};

/// The code of blocks has the form of its opcodes, an invariant of the type of instructions.
pub fn know_forms(blocks: &[Block])
    ensures { AllItems (λ i. HasForm i.kind) blocks.now }
{
    for b in blocks {
        know_items(b.items.as_slice());
    }
}

fn know_items(items: &[Item])
    ensures { All (λ i. HasForm i.kind) items.now }
{
    for i in items {
        know_kind(&i.kind);
    }
}

fn know_kind(kind: &ItemKind)
    ensures { HasForm kind.now }
{
    match kind {
        ItemKind::Code(i, _) => {
            let _ = &i.op;
        }
        ItemKind::Mark(_, _) | ItemKind::Phi(_, _) => {}
    }
}

/// The silent indices of blocks are numbers of 32 bits.
pub fn know_silent(blocks: &[Block])
    ensures { All (λ b. b.source_end < 2 ^ 32) blocks.now }
{
    for b in blocks {
        know_number(b.source_end);
    }
}

fn know_number(n: u32)
    ensures { n < 2 ^ 32 }
{}
