//! Instructions after frame index elimination: slots and stack objects as offsets from x2.

ghost use Rattle.std.specs.Prelude.{◌≡◌, ◌∷◌, ◌++◌, false, IfOk, OnOk, MatchOption};
ghost use Rattle.rv64_instr.specs.declared.operand.Operand.TheVariants.{Use, Imm};
ghost use Rattle.rv64_instr.specs.Form.{has_form};
ghost use Rattle.mir_func.specs.Function.{FramedFunction};
ghost use Rattle.emit_code.specs.Listed.{by_pointer, listed};
ghost use Rattle.emit_code.specs.steps.Plans.{AreOffsetsOf};
ghost use Rattle.listing_function.specs.steps.Operands.{IsSmall};

use emit_code::objects::ObjectOffsets;
use rv64_instr::instr::Instr;
use rv64_instr::operand::{Operand, Operands};
use rv64_instr::reg::{Reg, physical};
use std::alloc::{AllocError, Global};

/// The number of the stack pointer (RISC-V ELF psABI, "Integer Register Convention": sp).
const STACK_POINTER: u32 = 2;

/// An instruction as it is listed: an access to a slot or an address of a stack object is one by x2 and an offset, as
/// in the instruction's word. A slot's number is its offset from x2. There is none if the result doesn't have the form
/// of the opcode.
pub(crate) fn listed(
    alloc: Global,
    offsets: &ObjectOffsets,
    i: &Instr,
) -> Result<Option<Instr>, AllocError>
    ensures { (f : FramedFunction) → AreOffsetsOf f offsets.now →
        IfOk result (λ made. MatchOption made (has_form i.now.op (by_pointer f i.now.operands) ≡ false)
        (λ x. x ≡ listed f i.now)) }
{
    let operands = lowered(alloc, offsets, i.operands.as_slice())?;
    match Instr::new(i.op, operands) {
        Some(made) => Ok(Some(made.with_volatile(i.is_volatile_load()))),
        None => Ok(None),
    }
}

fn lowered(
    alloc: Global,
    offsets: &ObjectOffsets,
    operands: &[Operand],
) -> Result<Operands, AllocError>
    requires { IsSmall operands.now }
    ensures { (f : FramedFunction) → AreOffsetsOf f offsets.now →
        IfOk result (λ made. made ≡ by_pointer f operands.now) }
{
    match operands {
        [first, Operand::Slot(n), Operand::Imm(_), rest @ ..] => {
            reaching(alloc, first, i64::from(n.number()), rest)
        }
        [first, Operand::Object(n), Operand::Imm(i), rest @ ..] => {
            reaching(alloc, first, i64::from(offsets.of(Some(*n))) + *i, rest)
        }
        _ => copied(alloc, operands),
    }
}

/// Operands of which the second is x2, and the third the number n.
fn reaching(
    alloc: Global,
    first: &Operand,
    n: i64,
    rest: &[Operand],
) -> Result<Operands, AllocError>
    ensures { IfOk result (λ made. made ≡ first.now ∷ Use 2 ∷ Imm n ∷ rest.now) }
{
    let mut made = Operands::new(alloc);
    made.push(first.copy()?)?;
    made.push(Operand::Use(pointer()))?;
    made.push(Operand::Imm(n))?;
    push_all(&mut made, rest)?;
    Ok(made)
}

fn copied(alloc: Global, operands: &[Operand]) -> Result<Operands, AllocError>
    ensures { IfOk result (λ made. made ≡ operands.now) }
{
    let mut made = Operands::new(alloc);
    push_all(&mut made, operands)?;
    Ok(made)
}

fn push_all(made: &mut Operands, operands: &[Operand]) -> Result<(), AllocError>
    ensures { OnOk result (made.new ≡ made.old ++ operands.now) }
{
    for operand in operands {
        made.push(operand.copy()?)?;
    }
    Ok(())
}

/// The stack pointer.
fn pointer() -> Reg
    ensures { result ≡ 2 }
{
    match physical(STACK_POINTER) {
        Some(r) => r,
        None => unreachable!(),
    }
}
