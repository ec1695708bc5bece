//! Instructions.

ghost use Rattle.std.specs.Prelude.{◌≡◌, ◌∷◌, ◌++◌, filter, not, OnOk, OnErr, IfOk};
ghost use Rattle.mir_printer.specs.Growth.{GrownFrom};
ghost use Rattle.mir_printer.specs.Spelling.{
  as_callee,
  definitions_text,
  held_uses,
  implicit_register,
  instruction_text,
  is_definition,
  number_text,
  operand_text,
  uses_behind,
  uses_text,
};
ghost use Rattle.mir_printer.specs.steps.Listed.{selects, selected_texts, listed_text, has_any};

use crate::operand::{push_operand, push_register};
use crate::text::{Text, push_numbered, push_str};
use base_ids::function_ids::DebugNumber;
use rv64_instr::instr::Instr;
use rv64_instr::op::Op;
use rv64_instr::operand::Operand;
use rv64_instr::reg::Reg;
use std::alloc::AllocError;

/// Appends an instruction: its definitions, its opcode's name and its other operands.
pub(crate) fn push_instruction(text: &mut Text, instr: &Instr) -> Result<(), AllocError>
    ensures ok { OnOk result (text.new ≡ text.old ++ instruction_text instr.now) }
    ensures err { OnErr result (GrownFrom text.old text.new) }
{
    let operands = instr.operands.as_slice();
    push_definitions(text, operands)?;
    push_str(text, instr.op.mnemonic())?;
    push_behind(text, instr.op, operands)
}

fn push_definitions(text: &mut Text, operands: &[Operand]) -> Result<(), AllocError>
    ensures ok { OnOk result (text.new ≡ text.old ++ definitions_text (filter is_definition operands.now)) }
    ensures err { OnErr result (GrownFrom text.old text.new) }
{
    if push_operands(text, "", operands, true)? {
        push_str(text, " = ")
    } else {
        Ok(())
    }
}

/// Appends the operands behind an opcode.
fn push_behind(text: &mut Text, op: Op, operands: &[Operand]) -> Result<(), AllocError>
    ensures ok { OnOk result (text.new ≡ text.old ++ uses_text (uses_behind op operands.now)) }
    ensures err { OnErr result (GrownFrom text.old text.new) }
{
    if op.has_implicit_callee() {
        push_held(text, operands)
    } else {
        push_uses(text, operands)
    }
}

/// Appends those of a call whose callee's register is an implicit use.
fn push_held(text: &mut Text, operands: &[Operand]) -> Result<(), AllocError>
    ensures ok { OnOk result (text.new ≡ text.old ++ uses_text (held_uses operands.now)) }
    ensures err { OnErr result (GrownFrom text.old text.new) }
{
    match operands {
        [] => Ok(()),
        [callee, rest @ ..] => push_callee_and_uses(text, callee, rest),
    }
}

fn push_callee_and_uses(
    text: &mut Text,
    callee: &Operand,
    rest: &[Operand],
) -> Result<(), AllocError>
    ensures ok { OnOk result (text.new ≡ text.old ++
        uses_text (as_callee callee.now ∷ filter (λ o. not (is_definition o)) rest.now)) }
    ensures err { OnErr result (GrownFrom text.old text.new) }
{
    push_str(text, " ")?;
    push_callee(text, callee)?;
    push_operands(text, ", ", rest, false)?;
    Ok(())
}

/// Appends the callee of a call by a register.
fn push_callee(text: &mut Text, callee: &Operand) -> Result<(), AllocError>
    ensures ok { OnOk result (text.new ≡ text.old ++ operand_text (as_callee callee.now)) }
    ensures err { OnErr result (GrownFrom text.old text.new) }
{
    match implicit_register(callee) {
        Some(r) => push_register(text, r),
        None => push_operand(text, callee),
    }
}

/// The register of an implicit use.
fn implicit_register(operand: &Operand) -> Option<Reg>
    ensures { result ≡ implicit_register operand.now }
{
    match operand {
        Operand::ImplicitUse(r) => Some(*r),
        Operand::Def(_)
        | Operand::Use(_)
        | Operand::ImplicitDef(_)
        | Operand::Imm(_)
        | Operand::Slot(_)
        | Operand::Object(_)
        | Operand::Part(_, _)
        | Operand::Outgoing(_)
        | Operand::GlobalRegisters
        | Operand::Block(_)
        | Operand::Symbol(_)
        | Operand::Mask => None,
    }
}

fn push_uses(text: &mut Text, operands: &[Operand]) -> Result<(), AllocError>
    ensures ok { OnOk result (text.new ≡ text.old ++ uses_text (filter (λ o. not (is_definition o)) operands.now)) }
    ensures err { OnErr result (GrownFrom text.old text.new) }
{
    push_operands(text, " ", operands, false)?;
    Ok(())
}

/// Appends the explicit definitions, or the other operands, with commas between them and the lead before them, and
/// returns whether there is one. If there is none it appends nothing.
fn push_operands(
    text: &mut Text,
    lead: &'static str,
    operands: &[Operand],
    definitions: bool,
) -> Result<bool, AllocError>
    ensures ok { OnOk result (text.new ≡ text.old ++ listed_text lead.now (selected_texts definitions operands.now)) }
    ensures any { IfOk result (λ any. any ≡ has_any (selected_texts definitions operands.now)) }
    ensures err { OnErr result (GrownFrom text.old text.new) }
{
    let mut next_lead = lead;
    let mut any = false;
    for operand in operands {
        if is_selected(operand, definitions) {
            push_str(text, next_lead)?;
            push_operand(text, operand)?;
            next_lead = ", ";
            any = true;
        }
    }
    Ok(any)
}

/// Whether it is an explicit definition, or whether it is none.
fn is_selected(operand: &Operand, definitions: bool) -> bool
    ensures { result ≡ selects definitions operand.now }
{
    is_definition(operand) == definitions
}

fn is_definition(operand: &Operand) -> bool
    ensures { result ≡ is_definition operand.now }
{
    match operand {
        Operand::Def(_) => true,
        Operand::Use(_)
        | Operand::ImplicitDef(_)
        | Operand::ImplicitUse(_)
        | Operand::Imm(_)
        | Operand::Slot(_)
        | Operand::Object(_)
        | Operand::Part(_, _)
        | Operand::Outgoing(_)
        | Operand::GlobalRegisters
        | Operand::Block(_)
        | Operand::Symbol(_)
        | Operand::Mask => false,
    }
}

/// Appends the debug instruction number, if there is one.
pub(crate) fn push_number(text: &mut Text, number: &Option<DebugNumber>) -> Result<(), AllocError>
    ensures ok { OnOk result (text.new ≡ text.old ++ number_text number.now) }
    ensures err { OnErr result (GrownFrom text.old text.new) }
{
    match number {
        None => Ok(()),
        Some(k) => push_numbered(text, ", debug-instr-number ", k.number()),
    }
}
