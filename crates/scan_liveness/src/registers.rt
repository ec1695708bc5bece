//! The greatest number of the registers that code names.

ghost use Rattle.std.specs.Prelude.{◌≡◌, ◌<◌, max};
ghost use Rattle.scan_liveness.specs.Registers.{greatest_register, greatest_in, greatest_of, greatest_operand};
ghost use Rattle.scan_liveness.specs.Registers.{register_of};

use mir_func::block::Block;
use mir_func::item::{Item, ItemKind};
use rv64_instr::operand::Operand;

/// The greatest number of a register in an operand of code, or 0 if there is none. It takes no memory.
pub fn greatest_register(blocks: &[Block]) -> u32
    ensures greatest { result ≡ greatest_register blocks.now }
    ensures below { result < 4128 }
{
    let mut most: u32 = 0;
    for block in blocks {
        most = greater(most, greatest_in(block.items.as_slice()));
    }
    most
}

fn greatest_in(items: &[Item]) -> u32
    ensures greatest { result ≡ greatest_in items.now }
    ensures below { result < 4128 }
{
    let mut most: u32 = 0;
    for item in items {
        most = greater(most, greatest_of(&item.kind));
    }
    most
}

fn greatest_of(kind: &ItemKind) -> u32
    ensures greatest { result ≡ greatest_of kind.now }
    ensures below { result < 4128 }
{
    match kind {
        ItemKind::Code(i, _) => greatest_operand(i.operands.as_slice()),
        ItemKind::Mark(_, _) | ItemKind::Phi(_, _) => 0,
    }
}

fn greatest_operand(operands: &[Operand]) -> u32
    ensures greatest { result ≡ greatest_operand operands.now }
    ensures below { result < 4128 }
{
    let mut most: u32 = 0;
    for operand in operands {
        most = greater(most, register_of(operand));
    }
    most
}

/// The number of an operand's register, or 0 if it is none.
pub(crate) fn register_of(operand: &Operand) -> u32
    ensures register { result ≡ register_of operand.now }
    ensures below { result < 4128 }
{
    match operand {
        Operand::Def(r) | Operand::Use(r) => r.number(),
        Operand::ImplicitDef(r) | Operand::ImplicitUse(r) => r.number(),
        Operand::Imm(_)
        | Operand::Slot(_)
        | Operand::Object(_)
        | Operand::Part(_, _)
        | Operand::Outgoing(_)
        | Operand::GlobalRegisters
        | Operand::Block(_)
        | Operand::Symbol(_)
        | Operand::Mask => 0,
    }
}

/// The greater of two numbers.
fn greater(a: u32, b: u32) -> u32
    ensures { result ≡ max a b }
{
    if a < b { b } else { a }
}
