//! The item that a line is.

ghost use Rattle.std.specs.Prelude.{◌≡◌, ◌&&◌, IfOk, Ok, Err};
ghost use Rattle.read_refusal.specs.declared.kind.RefusalKind.{RefusalKind};
ghost use Rattle.read_item.specs.declared.judged.JudgeError.TheVariants.{Refused};
ghost use Rattle.read_item.specs.Judge.{
  entry_of,
  entries_of,
  numbered,
  item_of,
  two_of,
  is_zero,
  begins_with_zeros,
  is_integer,
  begins_with_integers,
  is_call_frame,
  judged,
};
ghost use Rattle.read_item.specs.Code.{code_of};
ghost use Rattle.read_item.specs.Address.{address_of};
ghost use Rattle.read_item.specs.Debug.{is_empty, debug_of};

use crate::address::address_of;
use crate::code::code_of;
use crate::debug::debug_of;
use crate::judged::{BoxedItem, JudgeError, Judged, JudgedItem, StackIds};
use crate::opcode::{DebugOpcode, Opcode, opcode_of, returning};
use crate::operand::fixed_number;
use base_ids::function_ids::SlotId;
use read_line::form::{ItemForm, OperandForm};
use read_line::mir_func_crate::item::ItemKind;
use read_line::read_metadata_crate::metadata::Metadata;
use read_refusal::kind::RefusalKind;
use rv64_instr::op::Op;
use std::alloc::{AllocError, Global};

/// The number of a stack entry or of a fixed stack object.
fn entry_of(form: &OperandForm) -> Option<SlotId>
    ensures { result ≡ entry_of form.now }
{
    match form {
        OperandForm::Slot(entry) => Some(*entry),
        OperandForm::Fixed(n) => Some(SlotId(fixed_number(*n).number())),
        _ => None,
    }
}

/// The numbers of what a line names, in order.
fn entries_of(alloc: Global, forms: &[OperandForm]) -> Result<Vec<SlotId>, AllocError>
    ensures { IfOk result (λ entries. entries.items ≡ entries_of forms.now) }
{
    forms
        .iter()
        .filter_map(|form| entry_of(form))
        .collect(alloc)
}

/// An item with the debug location of its line and the numbers of what the line names.
fn item_of(alloc: Global, line: &ItemForm, kind: ItemKind) -> Result<Judged, JudgeError>
    ensures ok { IfOk result (λ item. item_of line.now (Ok kind) ≡ Ok item) }
    ensures refused { (why : RefusalKind) → result ≡ Err (Refused why) → item_of line.now (Ok kind) ≡ Err why }
{
    let entries = entries_of(alloc, line.operands.as_slice())?;
    Ok(Judged::Item(JudgedItem {
        kind,
        loc: line.loc,
        entries: StackIds::from(entries),
    }))
}

/// The item of a line with an instruction.
fn judge_code(alloc: Global, op: Op, line: &ItemForm) -> Result<Judged, JudgeError>
    ensures ok { IfOk result (λ item. item_of line.now (numbered line.now.number (code_of op line.now)) ≡ Ok item) }
    ensures refused { (refusal : RefusalKind) → result ≡ Err (Refused refusal)
        → item_of line.now (numbered line.now.number (code_of op line.now)) ≡ Err refusal }
{
    let instr = code_of(alloc, op, line)?;
    item_of(alloc, line, ItemKind::Code(instr, line.number))
}

/// The two items of a line with `PseudoMovAddr`.
fn judge_address(alloc: Global, line: &ItemForm) -> Result<Judged, JudgeError>
    ensures ok { IfOk result (λ two. two_of line.now (address_of line.now) ≡ Ok two) }
    ensures refused { (refusal : RefusalKind) → result ≡ Err (Refused refusal)
        → two_of line.now (address_of line.now) ≡ Err refusal }
{
    let (upper, lower) = address_of(alloc, line)?;
    let entries = entries_of(alloc, line.operands.as_slice())?;
    let first = JudgedItem {
        kind: ItemKind::Code(upper, None),
        loc: line.loc,
        entries: StackIds::new(alloc),
    };
    let second = JudgedItem {
        kind: ItemKind::Code(lower, line.number),
        loc: line.loc,
        entries: StackIds::from(entries),
    };
    Ok(Judged::Two(first, BoxedItem::new(alloc, second)?))
}

/// The item of a debug line.
fn judge_debug(
    alloc: Global,
    op: DebugOpcode,
    meta: &Metadata,
    line: &ItemForm,
) -> Result<Judged, JudgeError>
    ensures ok { IfOk result (λ item. item_of line.now (debug_of op meta.now line.now) ≡ Ok item) }
    ensures refused { (refusal : RefusalKind) → result ≡ Err (Refused refusal)
        → item_of line.now (debug_of op meta.now line.now) ≡ Err refusal }
{
    match debug_of(op, meta, line) {
        Ok(kind) => item_of(alloc, line, kind),
        Err(refusal) => Err(JudgeError::Refused(refusal)),
    }
}

fn is_zero(form: &OperandForm) -> bool
    ensures { result ≡ is_zero form.now }
{
    match form {
        OperandForm::Integer(Some(number)) => *number == 0,
        _ => false,
    }
}

/// Whether operands begin with `0, 0`.
fn begins_with_zeros(forms: &[OperandForm]) -> bool
    ensures { result ≡ begins_with_zeros forms.now }
{
    match forms {
        [first, second, ..] => is_zero(first) && is_zero(second),
        _ => false,
    }
}

fn is_integer(form: &OperandForm) -> bool
    ensures { result ≡ is_integer form.now }
{
    matches!(form, OperandForm::Integer(_))
}

/// Whether operands begin with two integers.
fn begins_with_integers(forms: &[OperandForm]) -> bool
    ensures { result ≡ begins_with_integers forms.now }
{
    match forms {
        [first, second, ..] => is_integer(first) && is_integer(second),
        _ => false,
    }
}

/// Whether these are operands of a call frame: in the linked language it may take bytes.
fn is_call_frame(linked: bool, forms: &[OperandForm]) -> bool
    ensures { result ≡ is_call_frame linked forms.now }
{
    if linked {
        begins_with_integers(forms)
    } else {
        begins_with_zeros(forms)
    }
}

/// Whether an `ADJCALLSTACK` line is ignored.
fn has_call_frame(linked: bool, line: &ItemForm) -> bool
    ensures { result ≡ (is_empty line.now.definitions && is_call_frame linked line.now.operands) }
{
    line.definitions.is_empty() && is_call_frame(linked, line.operands.as_slice())
}

/// The item that a line is. `Refused` is exactly for a line that fails a check, with the lowest number of its
/// refusals: an unknown opcode, operands that don't fit the opcode, a virtual register, the stack pointer, a
/// `%stack.N` or `%fixed-stack.N` at a position that takes none, or more than 64 operands. `Memory` is for want of
/// memory. `linked` is whether the opcodes of the linked language are read.
#[tactic(auto, unfolding(crate::specs::Judge::judged))]
pub fn judge(
    alloc: Global,
    linked: bool,
    line: &ItemForm,
    meta: &Metadata,
) -> Result<Judged, JudgeError>
    ensures ok { IfOk result (λ item. judged linked meta.now line.now ≡ Ok item) }
    ensures refused { (why : RefusalKind) → result ≡ Err (Refused why) → judged linked meta.now line.now ≡ Err why }
{
    match opcode_of(linked, line.opcode.as_slice()) {
        Some(Opcode::Code(op)) => judge_code(alloc, returning(linked, line.no_return, op), line),
        Some(Opcode::Address) => judge_address(alloc, line),
        Some(Opcode::Debug(op)) => judge_debug(alloc, op, meta, line),
        Some(Opcode::Label) if line.number.is_none() => Ok(Judged::Passed),
        Some(Opcode::Pseudo) => Ok(Judged::Passed),
        Some(Opcode::CallFrame) if has_call_frame(linked, line) => Ok(Judged::Passed),
        Some(Opcode::Label | Opcode::CallFrame) => Err(JudgeError::Refused(
            RefusalKind::BadOperands,
        )),
        None => Err(JudgeError::Refused(RefusalKind::UnknownOpcode)),
    }
}
