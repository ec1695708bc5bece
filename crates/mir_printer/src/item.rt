//! Items.

ghost use Rattle.std.specs.Prelude.{◌≡◌, ◌++◌, OnOk, OnErr};
ghost use Rattle.mir_printer.specs.Growth.{GrownFrom};
ghost use Rattle.mir_printer.specs.Printable.{ItemTextTells, ItemLineTells};
ghost use Rattle.mir_printer.specs.Spelling.{item_text, kind_text, location_text, is_volatile_kind};

use crate::instruction::{push_instruction, push_number};
use crate::location::push_location;
use crate::mark::{push_mark, push_phi};
use crate::text::{Text, push_str};
use mir_func::item::{Item, ItemKind};
use std::alloc::AllocError;

/// Appends an item, without the blanks before it and the end of its line.
pub fn push_item(text: &mut Text, item: &Item) -> Result<(), AllocError>
    ensures ok { OnOk result (text.new ≡ text.old ++ item_text item.now) }
    ensures err { OnErr result (GrownFrom text.old text.new) }
{
    push_plain(text, item)?;
    if is_volatile(&item.kind) {
        push_str(text, " :: (volatile load)")?;
    }
    Ok(())
}

/// Appends an item without its memory operand.
fn push_plain(text: &mut Text, item: &Item) -> Result<(), AllocError>
    ensures ok { OnOk result (text.new ≡ text.old ++ (kind_text item.now.kind ++ location_text item.now.loc)) }
    ensures err { OnErr result (GrownFrom text.old text.new) }
{
    push_kind(text, &item.kind)?;
    push_location(text, &item.loc)
}

/// Whether an item is volatile code.
fn is_volatile(kind: &ItemKind) -> bool
    ensures { result ≡ is_volatile_kind kind.now }
{
    match kind {
        ItemKind::Code(instr, _) => instr.volatile,
        ItemKind::Mark(_, _) | ItemKind::Phi(_, _) => false,
    }
}

fn push_kind(text: &mut Text, kind: &ItemKind) -> Result<(), AllocError>
    ensures ok { OnOk result (text.new ≡ text.old ++ kind_text kind.now) }
    ensures err { OnErr result (GrownFrom text.old text.new) }
{
    match kind {
        ItemKind::Code(instr, number) => {
            push_instruction(text, instr)?;
            push_number(text, number)
        }
        ItemKind::Mark(variable, value) => push_mark(text, variable, value),
        ItemKind::Phi(place, number) => push_phi(text, place, number),
    }
}

/// The text of a printable item determines its kind and its location, and so does its line, whatever comes after it.
/// Printable items are those whose instruction has the form of its opcode, a `%stack.N` that could be a slot or an
/// object is an object exactly if N is declared as one's number, a phi of `$x0` is one of the constant 0, and a mark's
/// variable is inlined at the node that its location is inlined at.
pub fn one_reading()
    ensures text { ItemTextTells }
    ensures line { ItemLineTells }
{}
