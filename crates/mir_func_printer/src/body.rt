//! The blocks of a function.

ghost use Rattle.std.specs.Prelude.{◌≡◌, ◌++◌, OnOk};
ghost use Rattle.std.specs.List.{flat_map};
ghost use Rattle.mir_func_printer.specs.FuncText.{item_line, block_text};

use mir_func::block::Block;
use mir_func::item::Item;
use mir_printer::item::push_item;
use mir_printer::text::{Text, push_decimal, push_str};
use std::alloc::AllocError;

/// Appends the line of an item.
fn push_item_line(text: &mut Text, item: &Item) -> Result<(), AllocError>
    ensures { OnOk result (text.new ≡ text.old ++ item_line item.now) }
{
    push_str(text, "    ")?;
    push_item(text, item)?;
    text.push(b'\n')
}

fn push_items(text: &mut Text, items: &[Item]) -> Result<(), AllocError>
    ensures { OnOk result (text.new ≡ text.old ++ flat_map item_line items.now) }
{
    for item in items {
        push_item_line(text, item)?;
    }
    Ok(())
}

/// Appends a block: its label, and its items.
fn push_block(text: &mut Text, block: &Block) -> Result<(), AllocError>
    ensures { OnOk result (text.new ≡ text.old ++ block_text block.now) }
{
    push_str(text, "  bb.")?;
    push_decimal(text, block.id.number())?;
    push_str(text, ":\n")?;
    push_items(text, block.items.as_slice())
}

/// Appends blocks.
pub fn push_blocks(text: &mut Text, blocks: &[Block]) -> Result<(), AllocError>
    ensures { OnOk result (text.new ≡ text.old ++ flat_map block_text blocks.now) }
{
    for block in blocks {
        push_block(text, block)?;
    }
    Ok(())
}
