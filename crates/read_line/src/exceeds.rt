//! Whether a number on an item's line is above the limit, or an integer too wide.

ghost use Rattle.std.specs.Prelude.{◌≡◌};
ghost use Rattle.std.specs.List.{list_any};
ghost use Rattle.read_line.specs.Exceeds.{
  is_beyond,
  is_some_beyond,
  name_exceeds,
  register_exceeds,
  symbol_exceeds,
  operand_exceeds,
  loc_exceeds,
  attributes_exceed,
  is_wide,
  item_exceeds,
};

use crate::attribute::Attributes;
use crate::form::{Definitions, OperandForm, OperandForms, RegisterForm};
use base_ids::metadata::NodeId;
use mir_func::location::Loc;
use mir_func::rv64_instr_crate::symbol::Symbol;
use read_token::lexeme::{BEYOND, Lexeme, Number, RegisterName};

/// Whether a number is above 2^30 - 1.
fn is_beyond(n: u32) -> bool
    ensures { result ≡ is_beyond n }
{
    BEYOND <= n
}

fn is_node_beyond(node: Option<NodeId>) -> bool
    ensures { result ≡ is_some_beyond node }
{
    match node {
        Some(node) => is_beyond(node.number()),
        None => false,
    }
}

fn register_exceeds(register: RegisterForm) -> bool
    ensures { result ≡ register_exceeds register }
{
    match register.name {
        RegisterName::Virtual(n) => is_beyond(n),
        RegisterName::Physical(_) | RegisterName::Absent | RegisterName::Other => false,
    }
}

fn symbol_exceeds(symbol: &Symbol) -> bool
    ensures { result ≡ symbol_exceeds symbol.now }
{
    match symbol {
        Symbol::Constant(n) => is_beyond(*n),
        Symbol::Global(_) => false,
    }
}

fn operand_exceeds(operand: &OperandForm) -> bool
    ensures { result ≡ operand_exceeds operand.now }
{
    match operand {
        OperandForm::Register(register) => register_exceeds(*register),
        OperandForm::Slot(n) => is_beyond(n.number()),
        OperandForm::Block(n) => is_beyond(n.number()),
        OperandForm::Part(_, address) | OperandForm::Address(address) => {
            symbol_exceeds(&address.symbol)
        }
        OperandForm::Fixed(n) => is_beyond(*n),
        OperandForm::Node(n) => is_beyond(n.number()),
        OperandForm::Reference(pair) => {
            is_beyond(pair.number.number()) || is_beyond(pair.operand.number())
        }
        OperandForm::Integer(_)
        | OperandForm::Symbol(_)
        | OperandForm::Literal
        | OperandForm::Mask
        | OperandForm::Expression(_) => false,
    }
}

fn loc_exceeds(loc: Loc) -> bool
    ensures { result ≡ loc_exceeds loc }
{
    match loc {
        Loc::Absent => false,
        Loc::Node(n) => is_beyond(n.number()),
        Loc::Inline(l) => {
            is_beyond(l.line)
                || is_beyond(l.column)
                || is_beyond(l.scope.number())
                || is_node_beyond(l.inlined_at)
        }
    }
}

fn attributes_exceed(attributes: Attributes) -> bool
    ensures { result ≡ attributes_exceed attributes }
{
    match attributes.number {
        Some(n) if is_beyond(n.number()) => true,
        _ => loc_exceeds(attributes.loc),
    }
}

/// Whether a lexeme is an integer whose absolute value is 2^128 or more.
fn is_wide(lexeme: Lexeme) -> bool
    ensures { result ≡ is_wide lexeme }
{
    matches!(lexeme, Lexeme::Integer(Number::Wide))
}

fn has_wide(lexemes: &[Lexeme]) -> bool
    ensures { result ≡ list_any is_wide lexemes.now }
{
    lexemes.iter().any(|t| is_wide(*t))
}

fn definitions_exceed(definitions: &[RegisterForm]) -> bool
    ensures { result ≡ list_any register_exceeds definitions.now }
{
    definitions.iter().any(|d| register_exceeds(*d))
}

fn operands_exceed(operands: &[OperandForm]) -> bool
    ensures { result ≡ list_any operand_exceeds operands.now }
{
    operands.iter().any(|o| operand_exceeds(o))
}

/// Whether some number on the line is above its limit, or some integer has an absolute value of 2^128 or more.
pub fn item_exceeds(
    lexemes: &[Lexeme],
    definitions: &Definitions,
    operands: &OperandForms,
    attributes: Attributes,
) -> bool
    ensures { result ≡ item_exceeds lexemes.now definitions.now operands.now attributes }
{
    has_wide(lexemes)
        || definitions_exceed(definitions.as_slice())
        || operands_exceed(operands.as_slice())
        || attributes_exceed(attributes)
}
