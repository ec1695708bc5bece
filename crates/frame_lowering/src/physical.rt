//! Whether a function names only physical registers.

ghost use Rattle.std.specs.Prelude.{◌↔◌, ◌<◌, All, IsTrue};
ghost use Rattle.mir_func.specs.Sound.{AllItems};
ghost use Rattle.mir_func.specs.SoundFrame.{IsPhysical, ValueIsPhysical, PlaceIsPhysical, HasPhysical};

use mir_func::block::Block;
use mir_func::func::Func;
use mir_func::item::{Item, ItemKind};
use mir_func::variable::MarkValue;
use rv64_instr::operand::Operand;
use rv64_instr::place::Place;
use rv64_instr::reg::Reg;

/// Whether each register that a function names is one of x0 to x31.
pub fn is_physical(f: &Func) -> bool
    ensures { IsTrue result ↔ AllItems (λ i. HasPhysical i.kind) f.now.blocks }
{
    are_blocks_physical(f.blocks.as_slice())
}

fn are_blocks_physical(blocks: &[Block]) -> bool
    ensures { IsTrue result ↔ AllItems (λ i. HasPhysical i.kind) blocks.now }
{
    blocks.iter().all(|b| is_block_physical(b))
}

fn is_block_physical(b: &Block) -> bool
    ensures { IsTrue result ↔ All (λ i. HasPhysical i.kind) b.now.items }
{
    b.items.as_slice().iter().all(|i| has_physical(&i.kind))
}

fn has_physical(kind: &ItemKind) -> bool
    ensures { IsTrue result ↔ HasPhysical kind.now }
{
    match kind {
        ItemKind::Code(i, _) => are_operands_physical(i.operands.as_slice()),
        ItemKind::Mark(_, value) => is_value_physical(value),
        ItemKind::Phi(place, _) => is_place_physical(place),
    }
}

fn are_operands_physical(operands: &[Operand]) -> bool
    ensures { IsTrue result ↔ All IsPhysical operands.now }
{
    operands.iter().all(|o| is_operand_physical(o))
}

fn is_operand_physical(operand: &Operand) -> bool
    ensures { IsTrue result ↔ IsPhysical operand.now }
{
    match operand {
        Operand::Def(r) | Operand::Use(r) | Operand::ImplicitDef(r) | Operand::ImplicitUse(r) => {
            is_register_physical(*r)
        }
        Operand::Imm(_)
        | Operand::Slot(_)
        | Operand::Object(_)
        | Operand::Part(_, _)
        | Operand::Outgoing(_)
        | Operand::GlobalRegisters
        | Operand::Block(_)
        | Operand::Symbol(_)
        | Operand::Mask => true,
    }
}

fn is_value_physical(value: &MarkValue) -> bool
    ensures { IsTrue result ↔ ValueIsPhysical value.now }
{
    match value {
        MarkValue::At(r) => is_register_physical(*r),
        MarkValue::Nothing | MarkValue::Constant(_) | MarkValue::Pair(_) => true,
    }
}

fn is_place_physical(place: &Option<Place>) -> bool
    ensures { IsTrue result ↔ PlaceIsPhysical place.now }
{
    match place {
        Some(Place::Register(r)) => is_register_physical(*r),
        Some(Place::Slot(_)) | Some(Place::Const(_)) | None => true,
    }
}

fn is_register_physical(r: Reg) -> bool
    ensures { IsTrue result ↔ (r < 32) }
{
    r.number() < 32
}
