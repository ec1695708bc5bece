//! Debug lines: debug values and DBG_PHIs.

ghost use Rattle.std.specs.Prelude.{◌≡◌, Ok, Err};
ghost use Rattle.read_refusal.specs.declared.kind.RefusalKind.{RefusalKind};
ghost use Rattle.read_item.specs.Debug.{
  content_value,
  virtual_value,
  register_value,
  operand_value,
  is_direct,
  is_plain,
  part_of,
  is_argument,
  part_of_argument,
  value_mark,
  pair_value,
  reference_mark,
  list_mark,
  content_place,
  virtual_place,
  phi_place,
  counted,
  count_in,
  phi_by,
  phi_of,
  inlined_at,
  mark_kind,
  phi_kind,
  debug_kind,
  debug_of,
};

use crate::code::is_long;
use crate::opcode::DebugOpcode;
use crate::operand::virtual_register;
use base_ids::function_ids::DebugNumber;
use base_ids::metadata::NodeId;
use read_line::form::{Expression, ItemForm, OperandForm};
use read_line::mir_func_crate::item::ItemKind;
use read_line::mir_func_crate::location::Loc;
use read_line::mir_func_crate::variable::{Fragment, MarkValue, VarId};
use read_line::read_metadata_crate::metadata::Metadata;
use read_line::read_token_crate::lexeme::{Flag, RegisterName};
use read_refusal::kind::RefusalKind;
use rv64_instr::place::Place;
use rv64_instr::reg::Reg;

/// The operands of a debug value.
#[derive(Clone, Copy, Debug, PartialEq, Eq)]
pub struct MarkForm {
    /// The node of the variable.
    pub node: NodeId,
    /// The bytes of the variable's fragment, and `None` for the whole variable.
    pub fragment: Option<Fragment>,
    /// Its value.
    pub value: MarkValue,
}

/// The operands of a DBG_PHI.
#[derive(Clone, Copy, Debug, PartialEq, Eq)]
pub struct PhiForm {
    /// The location of the value, and `None` for none.
    pub place: Option<Place>,
    /// The debug instruction number of the DBG_PHI.
    pub number: DebugNumber,
}

/// The value of a DBG_VALUE of a register: the constant 0 for x0, and undef for x2.
fn content_value(register: Reg) -> MarkValue
    ensures { result ≡ content_value register }
{
    if register.number() == 0 {
        MarkValue::Constant(0)
    } else if register.number() == 2 {
        MarkValue::Nothing
    } else {
        MarkValue::At(register)
    }
}

/// The value of a DBG_VALUE by its first operand.
fn operand_value(form: &OperandForm) -> MarkValue
    ensures { result ≡ operand_value form.now }
{
    match form {
        OperandForm::Register(register) => register_value(register.flag, register.name),
        OperandForm::Integer(Some(number)) => MarkValue::Constant(*number),
        OperandForm::Integer(None)
        | OperandForm::Slot(_)
        | OperandForm::Fixed(_)
        | OperandForm::Part(_, _)
        | OperandForm::Address(_)
        | OperandForm::Literal
        | OperandForm::Block(_)
        | OperandForm::Symbol(_)
        | OperandForm::Mask
        | OperandForm::Node(_)
        | OperandForm::Expression(_)
        | OperandForm::Reference(_) => MarkValue::Nothing,
    }
}

/// The value of a DBG_VALUE of a virtual register, and undef if there is none.
fn virtual_value(register: Option<Reg>) -> MarkValue
    ensures { result ≡ virtual_value register }
{
    match register {
        Some(register) => MarkValue::At(register),
        None => MarkValue::Nothing,
    }
}

fn register_value(flag: Flag, name: RegisterName) -> MarkValue
    ensures { result ≡ register_value flag name }
{
    match flag {
        Flag::Plain => match name {
            RegisterName::Physical(register) => content_value(register),
            RegisterName::Virtual(number) => virtual_value(virtual_register(number)),
            RegisterName::Absent | RegisterName::Other => MarkValue::Nothing,
        },
        Flag::Implicit | Flag::ImplicitDef => MarkValue::Nothing,
    }
}

/// Whether the second operand of DBG_VALUE is `$noreg`: the value is the first operand itself.
fn is_direct(form: &OperandForm) -> bool
    ensures { result ≡ is_direct form.now }
{
    match form {
        OperandForm::Register(register) => match (register.flag, register.name) {
            (Flag::Plain, RegisterName::Absent) => true,
            _ => false,
        },
        _ => false,
    }
}

/// Whether the expression of `DBG_VALUE` leaves the operand as it is.
fn is_plain(expression: Expression) -> bool
    ensures { result ≡ is_plain expression }
{
    match expression {
        Expression::Empty | Expression::Part(_) => true,
        Expression::Argument | Expression::PartOfArgument(_) | Expression::Other => false,
    }
}

/// The fragment of the expression of `DBG_VALUE`.
fn part_of(expression: Expression) -> Option<Fragment>
    ensures { result ≡ part_of expression }
{
    match expression {
        Expression::Part(fragment) => Some(fragment),
        Expression::Empty
        | Expression::Argument
        | Expression::PartOfArgument(_)
        | Expression::Other => None,
    }
}

/// Whether the expression of `DBG_INSTR_REF` leaves the operand as it is.
fn is_argument(expression: Expression) -> bool
    ensures { result ≡ is_argument expression }
{
    match expression {
        Expression::Empty
        | Expression::Argument
        | Expression::Part(_)
        | Expression::PartOfArgument(_) => true,
        Expression::Other => false,
    }
}

/// The fragment of the expression of `DBG_INSTR_REF`.
fn part_of_argument(expression: Expression) -> Option<Fragment>
    ensures { result ≡ part_of_argument expression }
{
    match expression {
        Expression::Part(fragment) | Expression::PartOfArgument(fragment) => Some(fragment),
        Expression::Empty | Expression::Argument | Expression::Other => None,
    }
}

/// `DBG_VALUE p, q, !v, !DIExpression(..)`.
fn value_mark(forms: &[OperandForm]) -> Option<MarkForm>
    ensures { result ≡ value_mark forms.now }
{
    match forms {
        [
            operand,
            indirect,
            OperandForm::Node(node),
            OperandForm::Expression(expression),
        ] => {
            let value = if is_plain(*expression) && is_direct(indirect) {
                operand_value(operand)
            } else {
                MarkValue::Nothing
            };
            Some(MarkForm {
                node: *node,
                fragment: part_of(*expression),
                value,
            })
        }
        _ => None,
    }
}

/// The pair of `dbg-instr-ref(K, O)`, if it is the only operand; else undef.
fn pair_value(forms: &[OperandForm]) -> MarkValue
    ensures { result ≡ pair_value forms.now }
{
    match forms {
        [OperandForm::Reference(pair)] => MarkValue::Pair(*pair),
        _ => MarkValue::Nothing,
    }
}

/// `DBG_INSTR_REF !v, !DIExpression(..), ..`.
fn reference_mark(forms: &[OperandForm]) -> Option<MarkForm>
    ensures { result ≡ reference_mark forms.now }
{
    match forms {
        [
            OperandForm::Node(node),
            OperandForm::Expression(expression),
            rest @ ..,
        ] => {
            let value = if is_argument(*expression) {
                pair_value(rest)
            } else {
                MarkValue::Nothing
            };
            Some(MarkForm {
                node: *node,
                fragment: part_of_argument(*expression),
                value,
            })
        }
        _ => None,
    }
}

/// `DBG_VALUE_LIST !v, !DIExpression(..), ..`.
fn list_mark(forms: &[OperandForm]) -> Option<MarkForm>
    ensures { result ≡ list_mark forms.now }
{
    match forms {
        [OperandForm::Node(node), OperandForm::Expression(_), ..] => Some(MarkForm {
            node: *node,
            fragment: None,
            value: MarkValue::Nothing,
        }),
        _ => None,
    }
}

/// The location of a DBG_PHI of a register.
fn content_place(register: Reg) -> Option<Place>
    ensures { result ≡ content_place register }
{
    if register.number() == 0 {
        Some(Place::Const(0))
    } else if register.number() == 2 {
        None
    } else {
        Some(Place::Register(register))
    }
}

/// The location of a DBG_PHI of a virtual register, if there is one.
fn virtual_place(register: Option<Reg>) -> Option<Option<Place>>
    ensures { result ≡ virtual_place register }
{
    match register {
        Some(register) => Some(Some(Place::Register(register))),
        None => None,
    }
}

/// The location of a DBG_PHI by its first operand; the outer `Option` is `None` if the operand isn't allowed.
fn phi_place(form: &OperandForm) -> Option<Option<Place>>
    ensures { result ≡ phi_place form.now }
{
    match form {
        OperandForm::Register(register) => match register.flag {
            Flag::Plain => match register.name {
                RegisterName::Physical(register) => Some(content_place(register)),
                RegisterName::Virtual(number) => virtual_place(virtual_register(number)),
                RegisterName::Absent => Some(None),
                RegisterName::Other => None,
            },
            Flag::Implicit | Flag::ImplicitDef => None,
        },
        OperandForm::Slot(slot) => Some(Some(Place::Slot(*slot))),
        OperandForm::Fixed(_) => Some(None),
        OperandForm::Integer(_)
        | OperandForm::Part(_, _)
        | OperandForm::Address(_)
        | OperandForm::Literal
        | OperandForm::Block(_)
        | OperandForm::Symbol(_)
        | OperandForm::Mask
        | OperandForm::Node(_)
        | OperandForm::Expression(_)
        | OperandForm::Reference(_) => None,
    }
}

/// A number or count from 0 to 2^30 - 1.
fn counted(number: i64) -> Option<u32>
    ensures { result ≡ counted number }
{
    if 0 <= number && number <= 1_073_741_823 {
        Some(number as u32)
    } else {
        None
    }
}

/// The number or count that an operand is.
fn count_in(form: &OperandForm) -> Option<u32>
    ensures { result ≡ count_in form.now }
{
    match form {
        OperandForm::Integer(Some(number)) => counted(*number),
        _ => None,
    }
}

fn phi_by(operand: &OperandForm, number: &OperandForm) -> Option<PhiForm>
    ensures { result ≡ phi_by (phi_place operand.now) (count_in number.now) }
{
    let place = phi_place(operand)?;
    let number = DebugNumber(count_in(number)?);
    Some(PhiForm { place, number })
}

/// `DBG_PHI p, K` and `DBG_PHI p, K, bits`.
fn phi_of(forms: &[OperandForm]) -> Option<PhiForm>
    ensures { result ≡ phi_of forms.now }
{
    match forms {
        [operand, number] => phi_by(operand, number),
        [operand, number, bits] => match count_in(bits) {
            Some(_) => phi_by(operand, number),
            None => None,
        },
        _ => None,
    }
}

/// The `inlinedAt` node of a debug location.
pub fn inlined_at(meta: &Metadata, loc: Loc) -> Option<NodeId>
    ensures { result ≡ inlined_at meta.now loc }
{
    match loc {
        Loc::Absent => None,
        Loc::Node(node) => meta.location(node)?.inlined_at,
        Loc::Inline(location) => location.inlined_at,
    }
}

fn mark_kind(at: Option<NodeId>, mark: Option<MarkForm>) -> Option<ItemKind>
    ensures { result ≡ mark_kind at mark }
{
    match mark {
        Some(mark) => Some(ItemKind::Mark(
            VarId {
                node: mark.node,
                inlined_at: at,
                fragment: mark.fragment,
            },
            mark.value,
        )),
        None => None,
    }
}

fn phi_kind(phi: Option<PhiForm>) -> Option<ItemKind>
    ensures { result ≡ phi_kind phi }
{
    match phi {
        Some(phi) => Some(ItemKind::Phi(phi.place, phi.number)),
        None => None,
    }
}

/// The item of a debug line, if its operands have the form of its opcode.
fn debug_kind(op: DebugOpcode, meta: &Metadata, line: &ItemForm) -> Option<ItemKind>
    ensures { result ≡ debug_kind op meta.now line.now }
{
    let forms = line.operands.as_slice();
    match op {
        DebugOpcode::Value => mark_kind(inlined_at(meta, line.loc), value_mark(forms)),
        DebugOpcode::InstrRef => mark_kind(inlined_at(meta, line.loc), reference_mark(forms)),
        DebugOpcode::ValueList => mark_kind(inlined_at(meta, line.loc), list_mark(forms)),
        DebugOpcode::Phi => phi_kind(phi_of(forms)),
    }
}

/// The debug value or DBG_PHI of a debug line. It takes no memory.
#[tactic(auto, unfolding(crate::specs::Debug::debug_of))]
pub fn debug_of(op: DebugOpcode, meta: &Metadata, line: &ItemForm) -> Result<ItemKind, RefusalKind>
    ensures { result ≡ debug_of op meta.now line.now }
{
    let Some(kind) = debug_kind(op, meta, line) else {
        return Err(RefusalKind::BadOperands);
    };
    if line.exceeds || !line.definitions.is_empty() || line.number.is_some() {
        return Err(RefusalKind::BadOperands);
    }
    if is_long(line) {
        return Err(RefusalKind::TooMany);
    }
    Ok(kind)
}
