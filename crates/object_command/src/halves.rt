//! Whether code has halves of symbols' addresses, for which an object has no relocation.

ghost use Rattle.std.specs.Prelude.{◌↔◌, IsTrue, All};
ghost use Rattle.object_command.specs.Object.{IsNoHalf, KindHasNoHalf, LineHasNoHalf, HasNoHalf};

use listing_text::output::{Line, ListedBlock, ListedFunction};
use mir_func::item::ItemKind;
use rv64_instr::operand::Operand;

/// Whether no code of these functions has a half of a symbol's address.
pub fn have_no_half(functions: &[ListedFunction]) -> bool
    ensures { IsTrue result ↔ All HasNoHalf functions.now }
{
    functions.iter().all(|f| has_no_half(f))
}

fn has_no_half(f: &ListedFunction) -> bool
    ensures { IsTrue result ↔ HasNoHalf f.now }
{
    lines_have_no_half(f.prologue.as_slice()) && blocks_have_no_half(f.blocks.as_slice())
}

fn blocks_have_no_half(blocks: &[ListedBlock]) -> bool
    ensures { IsTrue result ↔ All (λ b. All LineHasNoHalf b.lines) blocks.now }
{
    blocks
        .iter()
        .all(|b| lines_have_no_half(b.lines.as_slice()))
}

fn lines_have_no_half(lines: &[Line]) -> bool
    ensures { IsTrue result ↔ All LineHasNoHalf lines.now }
{
    lines.iter().all(|l| line_has_no_half(l))
}

fn line_has_no_half(line: &Line) -> bool
    ensures { IsTrue result ↔ LineHasNoHalf line.now }
{
    match line {
        Line::Item(listed) => kind_has_no_half(&listed.item.kind),
        Line::Skip(_) => true,
    }
}

fn kind_has_no_half(kind: &ItemKind) -> bool
    ensures { IsTrue result ↔ KindHasNoHalf kind.now }
{
    match kind {
        ItemKind::Code(i, _) => i.operands.as_slice().iter().all(|o| is_no_half(o)),
        ItemKind::Mark(_, _) | ItemKind::Phi(_, _) => true,
    }
}

fn is_no_half(operand: &Operand) -> bool
    ensures { IsTrue result ↔ IsNoHalf operand.now }
{
    match operand {
        Operand::Part(_, _) => false,
        _ => true,
    }
}
