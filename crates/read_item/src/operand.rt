//! Operands of instructions, from the operands of a line.

ghost use Rattle.std.specs.Prelude.{◌≡◌, IfOk, Ok, Some};
ghost use Rattle.read_item.specs.Address.{address_operands};
ghost use Rattle.read_item.specs.Code.{
  virtual_register,
  virtual_operand,
  number_of,
  named,
  stand_in,
  stack_operand,
  fixed_number,
  fixed_operand,
  half_operand,
  operand_at,
  called,
  callee_register,
  callee_operand,
  placed_behind_callee,
  placed_by,
  definition,
  definitions,
  before,
  placed,
  joined,
  append_to,
  operands_of,
  names_slot,
  is_whole_slot,
  places_of,
};

use crate::place::{ADDRESS, OperandKind, behind, front, places};
use base_ids::function_ids::{BlockId, ObjectId, SlotId};
use base_ids::limits::{FIXED, MAX_NUMBER};
use read_line::form::{AddressForm, ItemForm, OperandForm, RegisterForm};
use read_line::read_token_crate::lexeme::{Flag, RegisterName};
use rv64_instr::arithmetic::{load_width, store_width};
use rv64_instr::name::Name;
use rv64_instr::op::Op;
use rv64_instr::operand::{Operand, Operands};
use rv64_instr::reg::{Reg, physical};
use rv64_instr::symbol::{Half, LinkedAddress};
use std::alloc::{AllocError, Global};

/// The virtual register `%N`, and `None` after `%4095`.
pub fn virtual_register(number: u32) -> Option<Reg>
    ensures { result ≡ virtual_register number }
{
    if number < 4096 {
        Reg::new(32 + number)
    } else {
        None
    }
}

/// `%N` as an operand of code. One that is refused counts as x10.
fn virtual_operand(flag: Flag, number: u32) -> Option<Reg>
    ensures { result ≡ Some (virtual_operand flag number) }
{
    match flag {
        Flag::Plain => virtual_register(number).or(physical(10)),
        Flag::Implicit | Flag::ImplicitDef => physical(10),
    }
}

/// The register of a name, if code may use it.
fn number_of(flag: Flag, name: RegisterName) -> Option<Reg>
    ensures { result ≡ number_of flag name }
{
    match name {
        RegisterName::Physical(register) => Some(register),
        RegisterName::Virtual(number) => virtual_operand(flag, number),
        RegisterName::Absent | RegisterName::Other => None,
    }
}

/// A register after the opcode: a use, an implicit use or an implicit def.
fn named(flag: Flag, register: Reg) -> Operand
    ensures { result ≡ named flag register }
{
    match flag {
        Flag::Plain => Operand::Use(register),
        Flag::Implicit => Operand::ImplicitUse(register),
        Flag::ImplicitDef => Operand::ImplicitDef(register),
    }
}

/// An operand that fits a position, for one that has a check of its own.
fn stand_in(alloc: Global, place: OperandKind) -> Option<Operand>
    ensures { result ≡ stand_in place }
{
    match place {
        OperandKind::Object | OperandKind::Slot | OperandKind::Register => {
            Some(Operand::Use(physical(10)?))
        }
        OperandKind::Number => Some(Operand::Imm(0)),
        OperandKind::Block => Some(Operand::Block(BlockId(0))),
        OperandKind::Symbol => Some(Operand::Symbol(Name::new(alloc))),
        OperandKind::Mask => Some(Operand::Mask),
        OperandKind::Implicit => None,
    }
}

/// `%stack.N` at an operand position; at one that takes none, an operand that fits.
fn stack_operand(alloc: Global, place: OperandKind, entry: SlotId) -> Option<Operand>
    ensures { result ≡ stack_operand place entry }
{
    match place {
        OperandKind::Object => Some(Operand::Object(ObjectId(entry.number()))),
        OperandKind::Slot => Some(Operand::Slot(entry)),
        OperandKind::Register
        | OperandKind::Number
        | OperandKind::Block
        | OperandKind::Symbol
        | OperandKind::Mask
        | OperandKind::Implicit => stand_in(alloc, place),
    }
}

/// The number of `%fixed-stack.N`; above the limit of N, that of the limit.
pub fn fixed_number(n: u32) -> ObjectId
    ensures { result ≡ fixed_number n }
{
    ObjectId(FIXED + n.min(MAX_NUMBER))
}

/// `%fixed-stack.N` at an operand position; at one that takes none, an operand that fits.
fn fixed_operand(alloc: Global, place: OperandKind, n: u32) -> Option<Operand>
    ensures { result ≡ fixed_operand place n }
{
    match place {
        OperandKind::Object | OperandKind::Slot => Some(Operand::Object(fixed_number(n))),
        OperandKind::Register
        | OperandKind::Number
        | OperandKind::Block
        | OperandKind::Symbol
        | OperandKind::Mask
        | OperandKind::Implicit => stand_in(alloc, place),
    }
}

/// A half of an address, if what is added fits 32 bits signed.
fn half_operand(half: Half, address: &AddressForm) -> Result<Option<Operand>, AllocError>
    ensures { IfOk result (λ operand. operand ≡ half_operand half address.now.symbol address.now.addend) }
{
    match address.addend {
        None => Ok(None),
        Some(addend) => {
            let symbol = address.symbol.copy()?;
            Ok(Some(Operand::Part(half, LinkedAddress { symbol, addend })))
        }
    }
}

/// The instruction operand for an operand of the line at a position; `None` if it can't be one in code.
fn operand_at(
    alloc: Global,
    place: OperandKind,
    form: &OperandForm,
) -> Result<Option<Operand>, AllocError>
    ensures { IfOk result (λ operand. operand ≡ operand_at place form.now) }
{
    match form {
        OperandForm::Register(register) => match number_of(register.flag, register.name) {
            Some(number) => Ok(Some(named(register.flag, number))),
            None => Ok(None),
        },
        OperandForm::Integer(Some(number)) => Ok(Some(Operand::Imm(*number))),
        OperandForm::Slot(entry) => Ok(stack_operand(alloc, place, *entry)),
        OperandForm::Fixed(n) => Ok(fixed_operand(alloc, place, *n)),
        OperandForm::Part(half, address) => half_operand(*half, address),
        OperandForm::Block(block) => Ok(Some(Operand::Block(*block))),
        OperandForm::Symbol(name) => Ok(Some(Operand::Symbol(name.copy()?))),
        OperandForm::Mask => Ok(Some(Operand::Mask)),
        OperandForm::Integer(None)
        | OperandForm::Address(_)
        | OperandForm::Literal
        | OperandForm::Node(_)
        | OperandForm::Expression(_)
        | OperandForm::Reference(_) => Ok(None),
    }
}

/// The def for a register before the `=`, if it is a known register without a flag.
fn definition(register: RegisterForm) -> Option<Operand>
    ensures { result ≡ definition register }
{
    match register.flag {
        Flag::Plain => Some(Operand::Def(number_of(register.flag, register.name)?)),
        Flag::Implicit | Flag::ImplicitDef => None,
    }
}

/// The defs for the registers before the `=`, if each exists.
fn definitions(alloc: Global, registers: &[RegisterForm]) -> Result<Option<Operands>, AllocError>
    ensures { IfOk result (λ operands. operands ≡ definitions registers.now) }
{
    let mut operands = Operands::new(alloc);
    for register in registers {
        match definition(*register) {
            Some(operand) => operands.push(operand)?,
            None => return Ok(None),
        }
    }
    Ok(Some(operands))
}

/// The operands `first`, and then those after the opcode, each at its position, if each exists.
fn placed(
    alloc: Global,
    first: Operands,
    places: &[OperandKind],
    forms: &[OperandForm],
) -> Result<Option<Operands>, AllocError>
    ensures { IfOk result (λ operands. operands ≡ append_to first (placed places.now forms.now)) }
{
    let mut operands = first;
    let mut rest = places;
    for form in forms {
        match operand_at(alloc, front(rest), form)? {
            Some(operand) => operands.push(operand)?,
            None => return Ok(None),
        }
        rest = behind(rest);
    }
    Ok(Some(operands))
}

/// The register of a call by a register or in tail position, which is its first implicit use.
fn called(register: Option<Reg>) -> Option<Operand>
    ensures { result ≡ called register }
{
    match register {
        None => None,
        Some(register) => {
            if register.number() == 2 {
                Some(Operand::ImplicitUse(physical(10)?))
            } else {
                Some(Operand::ImplicitUse(register))
            }
        }
    }
}

fn callee_register(register: RegisterForm) -> Option<Operand>
    ensures { result ≡ callee_register register.flag register.name }
{
    match register.flag {
        Flag::Plain => called(number_of(Flag::Implicit, register.name)),
        Flag::Implicit | Flag::ImplicitDef => None,
    }
}

/// The operand for the register of such a call; a stack entry counts as one that fits.
fn callee_operand(form: &OperandForm) -> Option<Operand>
    ensures { result ≡ callee_operand form.now }
{
    match form {
        OperandForm::Register(register) => callee_register(*register),
        OperandForm::Slot(_) | OperandForm::Fixed(_) => Some(Operand::ImplicitUse(physical(10)?)),
        _ => None,
    }
}

/// The operands `first` and one more, and then those at these positions.
fn placed_behind(
    alloc: Global,
    first: Operands,
    operand: Operand,
    places: &[OperandKind],
    forms: &[OperandForm],
) -> Result<Option<Operands>, AllocError>
    ensures { IfOk result (λ operands. operands ≡ append_to first (before (Some operand) (placed places.now forms.now))) }
{
    let mut operands = first;
    operands.push(operand)?;
    placed(alloc, operands, places, forms)
}

/// The same, if there is one more.
fn placed_behind_some(
    alloc: Global,
    first: Operands,
    operand: Option<Operand>,
    places: &[OperandKind],
    forms: &[OperandForm],
) -> Result<Option<Operands>, AllocError>
    ensures { IfOk result (λ operands. operands ≡ append_to first (before operand (placed places.now forms.now))) }
{
    match operand {
        Some(operand) => placed_behind(alloc, first, operand, places, forms),
        None => Ok(None),
    }
}

/// The operands `first`, and then those after the opcode of such a call.
fn placed_behind_callee(
    alloc: Global,
    first: Operands,
    places: &[OperandKind],
    forms: &[OperandForm],
) -> Result<Option<Operands>, AllocError>
    ensures { IfOk result (λ operands. operands ≡ append_to first (placed_behind_callee places.now forms.now)) }
{
    match forms {
        [] => Ok(Some(first)),
        [callee, rest @ ..] => {
            placed_behind_some(alloc, first, callee_operand(callee), behind(places), rest)
        }
    }
}

/// The operands `first`, and then those after the opcode, each at its position, if each exists.
fn placed_by(
    alloc: Global,
    op: Op,
    first: Operands,
    places: &[OperandKind],
    forms: &[OperandForm],
) -> Result<Option<Operands>, AllocError>
    ensures { IfOk result (λ operands. operands ≡ append_to first (placed_by op places.now forms.now)) }
{
    if op.has_implicit_callee() {
        placed_behind_callee(alloc, first, places, forms)
    } else {
        placed(alloc, first, places, forms)
    }
}

/// Whether a load or store of this width with this offset operand accesses a whole spill slot.
fn is_whole_slot(width: usize, form: &OperandForm) -> bool
    ensures { result ≡ is_whole_slot width form.now }
{
    match form {
        OperandForm::Integer(Some(number)) => width == 8 && 0 <= *number && *number <= 0,
        _ => false,
    }
}

/// Whether a `%stack.N` address among the operands is a spill slot.
fn names_slot(op: Op, forms: &[OperandForm]) -> bool
    ensures { result ≡ names_slot op forms.now }
{
    match op {
        Op::Load(op) => match forms {
            [_, number, ..] => is_whole_slot(load_width(op), number),
            _ => false,
        },
        Op::Store(op) => match forms {
            [_, _, number, ..] => is_whole_slot(store_width(op), number),
            _ => false,
        },
        _ => false,
    }
}

/// The positions of the line's operands after the opcode.
pub fn places_of(op: Op, line: &ItemForm) -> &'static [OperandKind]
    ensures { result.now ≡ places_of op line.now }
{
    places(op, names_slot(op, line.operands.as_slice()))
}

/// The operands of the instruction, defs first, if each exists.
#[tactic(auto, unfolding(crate::specs::Code::operands_of))]
pub fn operands_of(alloc: Global, op: Op, line: &ItemForm) -> Result<Option<Operands>, AllocError>
    ensures { IfOk result (λ operands. operands ≡ operands_of op line.now) }
{
    match definitions(alloc, line.definitions.as_slice())? {
        Some(first) => placed_by(
            alloc,
            op,
            first,
            places_of(op, line),
            line.operands.as_slice(),
        ),
        None => Ok(None),
    }
}

/// The operands of a `PseudoMovAddr`, defs first, if each exists.
pub fn address_operands(alloc: Global, line: &ItemForm) -> Result<Option<Operands>, AllocError>
    ensures { IfOk result (λ operands. operands ≡ address_operands line.now) }
{
    match definitions(alloc, line.definitions.as_slice())? {
        Some(first) => placed(alloc, first, &ADDRESS, line.operands.as_slice()),
        None => Ok(None),
    }
}
