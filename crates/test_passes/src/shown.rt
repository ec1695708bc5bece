//! Text of items with their origins, of substitutions and of losses, a line for each.

use mir_func::block::Block;
use mir_func::debug_substitution::DebugSubstitution;
use mir_func::item::Item;
use mir_func::position::{Origin, Pos};
use mir_printer::item::push_item;
use mir_printer::text::{Text, push_numbered, push_str};
use pass_trait::loss::{Loss, Lost, Reason};
use std::alloc::AllocError;

/// Appends blocks, each with its items.
pub fn push_blocks(text: &mut Text, blocks: &[Block]) -> Result<(), AllocError> {
    for b in blocks {
        push_numbered(text, "bb.", b.id.number())?;
        push_str(text, ":\n")?;
        push_items(text, b.items.as_slice())?;
    }
    Ok(())
}

/// Appends items, each behind its origin: `=` kept, `<` before.
pub fn push_items(text: &mut Text, items: &[Item]) -> Result<(), AllocError> {
    for i in items {
        match i.origin {
            Origin::Kept(p) => push_position(text, "=", p)?,
            Origin::Before(p) => push_position(text, "<", p)?,
        }
        push_str(text, " ")?;
        push_item(text, i)?;
        push_str(text, "\n")?;
    }
    Ok(())
}

/// Appends losses, each with its reason, where they are of registers that calls or added code name.
pub fn push_losses(text: &mut Text, losses: &[Loss]) -> Result<(), AllocError> {
    for loss in losses {
        match loss.what {
            Lost::Register(r) => push_numbered(text, "kept register x", r.number())?,
            Lost::Number(_) | Lost::Mark(_) => push_str(text, "a debug item")?,
        }
        let named = loss.reason == Reason::CallNamed;
        push_str(text, if named { " call-named\n" } else { "\n" })?;
    }
    Ok(())
}

/// Appends substitutions, a line for each.
pub fn push_entries(text: &mut Text, entries: &[DebugSubstitution]) -> Result<(), AllocError> {
    for e in entries {
        push_numbered(text, "", e.src.number.number())?;
        push_numbered(text, " is ", e.dst.number.number())?;
        push_numbered(text, " ", e.dst.operand.number())?;
        push_str(text, "\n")?;
    }
    Ok(())
}

fn push_position(text: &mut Text, label: &str, p: Pos) -> Result<(), AllocError> {
    push_numbered(text, label, p.block.number())?;
    push_numbered(text, ".", p.item)
}
