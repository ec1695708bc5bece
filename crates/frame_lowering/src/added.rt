//! The code of prologues and epilogues.

ghost use Rattle.std.specs.Prelude.{◌≡◌, ◌≤◌, ◌++◌, true, IfOk, OnOk, map};
ghost use Rattle.rv64_instr.specs.Form.{has_12_bits};
ghost use Rattle.mir_func.specs.Limits.{MAX_FRAME};
ghost use Rattle.mir_func.specs.SoundFrame.{adds_to_pointer, saves, restores};
ghost use Rattle.frame_rule.specs.Rule.{added};
ghost use Rattle.frame_lowering.specs.steps.Framing.{prologue_in, epilogue_in};

use crate::frame::Frame;
use crate::saving::register;
use base_ids::function_ids::{BlockId, SlotId};
use mir_func::framed::SavedRegister;
use mir_func::item::{Item, ItemKind, Items};
use mir_func::location::Loc;
use mir_func::position::{Origin, Pos, position_of};
use rv64_instr::instr::Instr;
use rv64_instr::op::{ImmediateOp, LoadOp, Op, StoreOp};
use rv64_instr::operand::{Operand, Operands};
use std::alloc::{AllocError, Global};

/// The number of the stack pointer (RISC-V ELF psABI, "Integer Register Convention": sp).
const STACK_POINTER: u32 = 2;

/// The prologue before the block with this number.
pub fn prologue(alloc: Global, frame: &Frame, first: BlockId) -> Result<Items, AllocError>
    requires { frame.now.size ≤ MAX_FRAME }
    ensures { IfOk result (λ items. items ≡ prologue_in frame.now first) }
{
    let mut items = Items::new(alloc);
    if frame.size == 0 {
        return Ok(items);
    }
    let origin = Origin::Before(Pos {
        block: first,
        item: 0,
    });
    items.push(added(origin, adds_to_pointer(alloc, -i64::from(frame.size))?))?;
    push_saves(alloc, frame.saved.as_slice(), origin, &mut items)?;
    Ok(items)
}

/// Appends the epilogue before a return with this origin.
pub fn push_epilogue(
    alloc: Global,
    frame: &Frame,
    origin: Origin,
    items: &mut Items,
) -> Result<(), AllocError>
    requires { frame.now.size ≤ MAX_FRAME }
    ensures { OnOk result (items.new ≡ items.old ++ epilogue_in frame.now origin) }
{
    if frame.size == 0 {
        return Ok(());
    }
    let before = Origin::Before(position_of(origin));
    push_restores(alloc, frame.saved.as_slice(), before, items)?;
    items.push(added(before, adds_to_pointer(alloc, i64::from(frame.size))?))?;
    Ok(())
}

fn push_saves(
    alloc: Global,
    saved: &[SavedRegister],
    origin: Origin,
    items: &mut Items,
) -> Result<(), AllocError>
    ensures { OnOk result (items.new ≡ items.old ++ map (λ s. added origin (saves s)) saved.now) }
{
    for s in saved {
        items.push(added(origin, saves(alloc, *s)?))?;
    }
    Ok(())
}

fn push_restores(
    alloc: Global,
    saved: &[SavedRegister],
    origin: Origin,
    items: &mut Items,
) -> Result<(), AllocError>
    ensures { OnOk result (items.new ≡ items.old ++ map (λ s. added origin (restores s)) saved.now) }
{
    for s in saved {
        items.push(added(origin, restores(alloc, *s)?))?;
    }
    Ok(())
}

/// Code with this origin, without number and debug location.
fn added(origin: Origin, code: Instr) -> Item
    ensures { result ≡ added origin code }
{
    Item {
        kind: ItemKind::Code(code, None),
        origin,
        loc: Loc::Absent,
    }
}

/// `ADDI x2, x2, n`.
fn adds_to_pointer(alloc: Global, n: i64) -> Result<Instr, AllocError>
    requires { has_12_bits n ≡ true }
    ensures { IfOk result (λ i. i ≡ adds_to_pointer n) }
{
    let pointer = register(STACK_POINTER);
    let mut operands = Operands::new(alloc);
    operands.push(Operand::Def(pointer))?;
    operands.push(Operand::Use(pointer))?;
    operands.push(Operand::Imm(n))?;
    Ok(Instr {
        op: Op::Immediate(ImmediateOp::Addi),
        operands,
        volatile: false,
    })
}

/// Stores a register into its save slot.
fn saves(alloc: Global, s: SavedRegister) -> Result<Instr, AllocError>
    ensures { IfOk result (λ i. i ≡ saves s) }
{
    let mut operands = Operands::new(alloc);
    operands.push(Operand::Use(s.register))?;
    operands.push(Operand::Slot(SlotId(s.offset)))?;
    operands.push(Operand::Imm(0))?;
    Ok(Instr {
        op: Op::Store(StoreOp::Sd),
        operands,
        volatile: false,
    })
}

/// Loads a register from its save slot.
fn restores(alloc: Global, s: SavedRegister) -> Result<Instr, AllocError>
    ensures { IfOk result (λ i. i ≡ restores s) }
{
    let mut operands = Operands::new(alloc);
    operands.push(Operand::Def(s.register))?;
    operands.push(Operand::Slot(SlotId(s.offset)))?;
    operands.push(Operand::Imm(0))?;
    Ok(Instr {
        op: Op::Load(LoadOp::Ld),
        operands,
        volatile: false,
    })
}
