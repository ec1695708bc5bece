//! Added code that names virtual registers.

ghost use Rattle.std.specs.Prelude.{◌≡◌, ◌&&◌};
ghost use Rattle.std.specs.List.{list_any};
ghost use Rattle.spill_select.specs.spill_rule.Choice.{is_added};
ghost use Rattle.spill_select.specs.spill_rule.steps.Any.{any_item};
ghost use Rattle.scan_allocation.specs.Allocation.{is_virtual, names_virtual, adds_virtual};

use mir_func::block::Block;
use mir_func::func::Func;
use mir_func::item::{Item, ItemKind};
use mir_func::position::Origin;
use rv64_instr::operand::Operand;

/// Whether some code that a pass added names a virtual register.
pub fn adds_virtual(f: &Func) -> bool
    ensures { result ≡ adds_virtual f.now }
{
    adds_any(f.blocks.as_slice())
}

fn adds_any(blocks: &[Block]) -> bool
    ensures { result ≡ any_item (λ i. is_added i.origin && names_virtual i.kind) blocks.now }
{
    blocks.iter().any(|b| adds_in(b.items.as_slice()))
}

fn adds_in(items: &[Item]) -> bool
    ensures { result ≡ list_any (λ i. is_added i.origin && names_virtual i.kind) items.now }
{
    items
        .iter()
        .any(|i| is_added(i.origin) && names_virtual(&i.kind))
}

fn is_added(origin: Origin) -> bool
    ensures { result ≡ is_added origin }
{
    match origin {
        Origin::Before(_) => true,
        Origin::Kept(_) => false,
    }
}

fn names_virtual(kind: &ItemKind) -> bool
    ensures { result ≡ names_virtual kind.now }
{
    match kind {
        ItemKind::Code(i, _) => has_virtual(i.operands.as_slice()),
        ItemKind::Mark(_, _) | ItemKind::Phi(_, _) => false,
    }
}

fn has_virtual(operands: &[Operand]) -> bool
    ensures { result ≡ list_any is_virtual operands.now }
{
    operands.iter().any(is_virtual)
}

fn is_virtual(operand: &Operand) -> bool
    ensures { result ≡ is_virtual operand.now }
{
    match operand {
        Operand::Def(r) | Operand::Use(r) => r.number() >= 32,
        Operand::ImplicitDef(_)
        | Operand::ImplicitUse(_)
        | Operand::Imm(_)
        | Operand::Slot(_)
        | Operand::Object(_)
        | Operand::Part(_, _)
        | Operand::Outgoing(_)
        | Operand::GlobalRegisters
        | Operand::Block(_)
        | Operand::Symbol(_)
        | Operand::Mask => false,
    }
}
