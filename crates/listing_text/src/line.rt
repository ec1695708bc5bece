//! The text of lines: of items, and of branches that skip.

ghost use Rattle.std.specs.Prelude.{◌≡◌, ◌++◌, OnOk};
ghost use Rattle.std.specs.List.{flat_map};
ghost use Rattle.mir_printer.specs.Spelling.{operand_text, register_text};
ghost use Rattle.listing_text.specs.Output.{line_text, item_line, skip_line, skip_text, implicit_text, operand_of};
ghost use Rattle.listing_text.specs.Output.{start_text, spaced_origin, origin_text, position_text};

use crate::hex::push_address;
use crate::output::{Implicit, ItemLine, Line, SkipLine};
use mir_func::position::{Origin, Pos};
use mir_printer::item::push_item;
use mir_printer::text::{Text, push_numbered, push_str};
use rv64_instr::reg::Reg;
use std::alloc::AllocError;

/// Appends lines.
pub(crate) fn push_lines(text: &mut Text, lines: &[Line]) -> Result<(), AllocError>
    ensures { OnOk result (text.new ≡ text.old ++ flat_map line_text lines.now) }
{
    for line in lines {
        push_line(text, line)?;
    }
    Ok(())
}

fn push_line(text: &mut Text, line: &Line) -> Result<(), AllocError>
    ensures { OnOk result (text.new ≡ text.old ++ line_text line.now) }
{
    match line {
        Line::Item(item) => push_item_line(text, item),
        Line::Skip(skip) => push_skip_line(text, skip),
    }
}

fn push_item_line(text: &mut Text, line: &ItemLine) -> Result<(), AllocError>
    ensures { OnOk result (text.new ≡ text.old ++ item_line line.now) }
{
    push_start(text, &line.address)?;
    push_spaced(text, &line.item.origin)?;
    push_item(text, &line.item)?;
    text.push(b'\n')
}

/// Appends an address, or `-`.
fn push_start(text: &mut Text, address: &Option<u32>) -> Result<(), AllocError>
    ensures { OnOk result (text.new ≡ text.old ++ start_text address.now) }
{
    match address {
        None => push_str(text, "-"),
        Some(a) => push_address(text, *a),
    }
}

/// Appends an origin, between blanks.
fn push_spaced(text: &mut Text, origin: &Origin) -> Result<(), AllocError>
    ensures { OnOk result (text.new ≡ text.old ++ spaced_origin origin.now) }
{
    push_origin(text, origin)?;
    text.push(b' ')
}

/// Appends an origin after a blank: ` =B.I` of kept code, ` <B.I` of code that was added before a position.
pub fn push_origin(text: &mut Text, origin: &Origin) -> Result<(), AllocError>
    ensures { OnOk result (text.new ≡ text.old ++ origin_text origin.now) }
{
    match origin {
        Origin::Kept(pos) => push_position(text, " =", *pos),
        Origin::Before(pos) => push_position(text, " <", *pos),
    }
}

/// Appends a sign and a position.
fn push_position(text: &mut Text, sign: &str, pos: Pos) -> Result<(), AllocError>
    ensures { OnOk result (text.new ≡ text.old ++ position_text sign.now pos) }
{
    push_numbered(text, sign, pos.block.number())?;
    push_numbered(text, ".", pos.item)
}

fn push_skip_line(text: &mut Text, line: &SkipLine) -> Result<(), AllocError>
    ensures { OnOk result (text.new ≡ text.old ++ skip_line line.now) }
{
    push_address(text, line.address)?;
    push_spaced(text, &line.origin)?;
    push_skip(text, line)?;
    text.push(b'\n')
}

/// Appends a branch over the next word, with `+8` as its target.
fn push_skip(text: &mut Text, line: &SkipLine) -> Result<(), AllocError>
    ensures { OnOk result (text.new ≡ text.old ++ skip_text line.now) }
{
    push_str(text, line.op.mnemonic())?;
    push_str(text, " ")?;
    push_register(text, line.first)?;
    push_str(text, ", ")?;
    push_register(text, line.second)?;
    push_str(text, ", +8")?;
    push_implicits(text, line.implicit.as_slice())
}

fn push_implicits(text: &mut Text, operands: &[Implicit]) -> Result<(), AllocError>
    ensures { OnOk result (text.new ≡ text.old ++ flat_map implicit_text operands.now) }
{
    for operand in operands {
        push_implicit(text, operand)?;
    }
    Ok(())
}

fn push_implicit(text: &mut Text, operand: &Implicit) -> Result<(), AllocError>
    ensures { OnOk result (text.new ≡ text.old ++ implicit_text operand.now) }
{
    push_str(text, ", ")?;
    push_operand(text, operand)
}

fn push_operand(text: &mut Text, operand: &Implicit) -> Result<(), AllocError>
    ensures { OnOk result (text.new ≡ text.old ++ operand_text (operand_of operand.now)) }
{
    match operand {
        Implicit::Def(r) => push_behind(text, "implicit-def ", *r),
        Implicit::Use(r) => push_behind(text, "implicit ", *r),
    }
}

/// Appends a word and a register after it.
fn push_behind(text: &mut Text, word: &str, r: Reg) -> Result<(), AllocError>
    ensures { OnOk result (text.new ≡ text.old ++ (word.now ++ register_text r)) }
{
    push_str(text, word)?;
    push_register(text, r)
}

/// Appends a register: `$xN`, or `%K` for a virtual one, from K = 0 on.
fn push_register(text: &mut Text, r: Reg) -> Result<(), AllocError>
    ensures { OnOk result (text.new ≡ text.old ++ register_text r) }
{
    let n = r.number();
    if n < 32 {
        push_numbered(text, "$x", n)
    } else {
        push_numbered(text, "%", n - 32)
    }
}
