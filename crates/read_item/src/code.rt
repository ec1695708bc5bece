//! The instruction that a line of code is.

ghost use Rattle.std.specs.Prelude.{◌≡◌, ◌&&◌, ◌||◌, IfOk, Ok, Err};
ghost use Rattle.std.specs.List.{list_any, zip};
ghost use Rattle.read_refusal.specs.declared.kind.RefusalKind.{RefusalKind};
ghost use Rattle.read_item.specs.declared.judged.JudgeError.TheVariants.{Refused};
ghost use Rattle.read_item.specs.Code.{
  is_refused_number,
  is_refused_virtual,
  is_refused_operand,
  is_virtual,
  begins_with_virtual,
  has_implicit_callee,
  is_pointer,
  is_pointer_operand,
  is_misplaced,
  is_stack,
  is_long,
  places_of,
  code_of,
};

use crate::judged::JudgeError;
use crate::operand::{operands_of, places_of, virtual_register};
use crate::place::OperandKind;
use read_line::form::{ItemForm, OperandForm, RegisterForm};
use read_line::read_token_crate::lexeme::{Flag, RegisterName};
use read_refusal::kind::RefusalKind;
use rv64_instr::instr::Instr;
use rv64_instr::op::Op;
use std::alloc::Global;

/// How many operands a line may have, counting the registers before the `=` and implicit ones.
pub const MAX_OPERANDS: usize = 64;

/// Whether `%N` is refused as an operand of code.
fn is_refused_number(flag: Flag, number: u32) -> bool
    ensures { result ≡ is_refused_number flag number }
{
    match flag {
        Flag::Plain => virtual_register(number).is_none(),
        Flag::Implicit | Flag::ImplicitDef => true,
    }
}

fn is_refused_virtual(register: &RegisterForm) -> bool
    ensures { result ≡ is_refused_virtual register.now }
{
    match register.name {
        RegisterName::Virtual(number) => is_refused_number(register.flag, number),
        RegisterName::Physical(_) | RegisterName::Absent | RegisterName::Other => false,
    }
}

fn is_refused_operand(form: &OperandForm) -> bool
    ensures { result ≡ is_refused_operand form.now }
{
    match form {
        OperandForm::Register(register) => is_refused_virtual(register),
        _ => false,
    }
}

/// Whether a register is x2, without a flag.
fn is_pointer(register: &RegisterForm) -> bool
    ensures { result ≡ is_pointer register.now }
{
    match (register.flag, register.name) {
        (Flag::Plain, RegisterName::Physical(register)) => register.number() == 2,
        _ => false,
    }
}

fn is_pointer_operand(form: &OperandForm) -> bool
    ensures { result ≡ is_pointer_operand form.now }
{
    match form {
        OperandForm::Register(register) => is_pointer(register),
        _ => false,
    }
}

fn sets_refused(registers: &[RegisterForm]) -> bool
    ensures { result ≡ list_any is_refused_virtual registers.now }
{
    registers.iter().any(is_refused_virtual)
}

fn uses_refused(forms: &[OperandForm]) -> bool
    ensures { result ≡ list_any is_refused_operand forms.now }
{
    forms.iter().any(is_refused_operand)
}

/// Whether a line names a virtual register that is refused.
pub fn names_refused_register(line: &ItemForm) -> bool
    ensures { result ≡ (list_any is_refused_virtual line.now.definitions || list_any is_refused_operand line.now.operands) }
{
    let set = sets_refused(line.definitions.as_slice());
    let used = uses_refused(line.operands.as_slice());
    set || used
}

fn is_virtual(name: RegisterName) -> bool
    ensures { result ≡ is_virtual name }
{
    matches!(name, RegisterName::Virtual(_))
}

fn begins_with_virtual(forms: &[OperandForm]) -> bool
    ensures { result ≡ begins_with_virtual forms.now }
{
    match forms {
        [OperandForm::Register(register), ..] => is_virtual(register.name),
        _ => false,
    }
}

/// Whether the register of a callee that is an implicit use is virtual.
fn names_virtual_callee(op: Op, line: &ItemForm) -> bool
    ensures { result ≡ (has_implicit_callee op && begins_with_virtual line.now.operands) }
{
    op.has_implicit_callee() && begins_with_virtual(line.operands.as_slice())
}

fn sets_pointer(registers: &[RegisterForm]) -> bool
    ensures { result ≡ list_any is_pointer registers.now }
{
    registers.iter().any(is_pointer)
}

fn uses_pointer(forms: &[OperandForm]) -> bool
    ensures { result ≡ list_any is_pointer_operand forms.now }
{
    forms.iter().any(is_pointer_operand)
}

/// Whether a line names x2 without a flag.
pub fn names_pointer(line: &ItemForm) -> bool
    ensures { result ≡ (list_any is_pointer line.now.definitions || list_any is_pointer_operand line.now.operands) }
{
    let set = sets_pointer(line.definitions.as_slice());
    let used = uses_pointer(line.operands.as_slice());
    set || used
}

/// Whether an operand is `%stack.N` or `%fixed-stack.N` at a position that takes none.
fn is_misplaced(place: OperandKind, form: &OperandForm) -> bool
    ensures { result ≡ is_misplaced (place, form.now) }
{
    match form {
        OperandForm::Slot(_) | OperandForm::Fixed(_) => match place {
            OperandKind::Object | OperandKind::Slot => false,
            _ => true,
        },
        _ => false,
    }
}

/// Whether a line has a `%stack.N` or `%fixed-stack.N` at a position that takes none.
fn misplaces_stack(op: Op, line: &ItemForm) -> bool
    ensures { result ≡ list_any is_misplaced (zip (places_of op line.now) line.now.operands) }
{
    places_of(op, line)
        .iter()
        .zip(line.operands.as_slice())
        .any(|(place, form)| is_misplaced(*place, form))
}

/// Whether a line has too many operands.
pub fn is_long(line: &ItemForm) -> bool
    ensures { result ≡ is_long line.now }
{
    let behind = line.operands.len();
    MAX_OPERANDS < behind || MAX_OPERANDS - behind < line.definitions.len()
}

/// The instruction that a line of code is. It is refused with the first of these that holds: `BadOperands` if the
/// operands don't have the form of the opcode or a number is above its limit, `VirtualRegister` for an implicit virtual
/// register or one after `%4095`, `StackPointerUse`, `StackObject` for a `%stack.N` or `%fixed-stack.N` at a position
/// that takes none, `TooMany` for more than 64 operands.
#[tactic(auto, unfolding(crate::specs::Code::code_of))]
pub fn code_of(alloc: Global, op: Op, line: &ItemForm) -> Result<Instr, JudgeError>
    ensures ok { IfOk result (λ instr. code_of op line.now ≡ Ok instr) }
    ensures refused { (kind : RefusalKind) → result ≡ Err (Refused kind) → code_of op line.now ≡ Err kind }
{
    let Some(operands) = operands_of(alloc, op, line)? else {
        return Err(JudgeError::Refused(RefusalKind::BadOperands));
    };
    let Some(instr) = Instr::new(op, operands) else {
        return Err(JudgeError::Refused(RefusalKind::BadOperands));
    };
    if line.exceeds {
        return Err(JudgeError::Refused(RefusalKind::BadOperands));
    }
    if names_refused_register(line) || names_virtual_callee(op, line) {
        return Err(JudgeError::Refused(RefusalKind::VirtualRegister));
    }
    if names_pointer(line) {
        return Err(JudgeError::Refused(RefusalKind::StackPointerUse));
    }
    if misplaces_stack(op, line) {
        return Err(JudgeError::Refused(RefusalKind::StackObject));
    }
    if is_long(line) {
        return Err(JudgeError::Refused(RefusalKind::TooMany));
    }
    Ok(instr.with_volatile(line.volatile && op.is_load()))
}
