//! Operands, parsed.

ghost use Rattle.std.specs.Prelude.{◌≡◌, IfOk};
ghost use Rattle.read_token.specs.Number.{BEYOND};
ghost use Rattle.read_line.specs.Read.{Gives};
ghost use Rattle.read_line.specs.Operand.{
  counted,
  fitting,
  is_zero,
  whole,
  whole_bytes,
  part_of,
  argument_expression,
  expression_of,
  expression_at,
  symbol_at,
  symbol_by,
  flagged_symbol_at,
  reference_at,
  mask_at,
  literal_at,
  typed_at,
  fixed_at,
  register_operand_at,
  word_operand_at,
  operand_at,
};

use crate::address::{address, half};
use crate::form::{Expression, OperandForm};
use crate::front::behind_bracket;
use crate::register::register;
use base_ids::function_ids::{DebugNumber, OperandIndex};
use mir_func::debug_substitution::OperandPair;
use mir_func::rv64_instr_crate::symbol::Half;
use mir_func::variable::Fragment;
use read_token::lexeme::{BEYOND, Lexeme, Number, Word};
use read_token::symbol::symbol_name;
use std::alloc::{AllocError, Global};

/// An integer that is a number or count; `BEYOND` if it is negative or above the limit.
pub fn counted(number: Number) -> u32
    ensures { result ≡ counted number }
{
    match number {
        Number::Fits(i) if 0 <= i && i <= i64::from(BEYOND) => i as u32,
        _ => BEYOND,
    }
}

/// An integer, if it fits 64 bits signed.
fn fitting(number: Number) -> Option<i64>
    ensures { result ≡ fitting number }
{
    match number {
        Number::Fits(i) => Some(i),
        Number::Large | Number::Wide => None,
    }
}

fn is_zero(number: Number) -> bool
    ensures { result ≡ is_zero number }
{
    matches!(number, Number::Fits(0))
}

/// This many bits in bytes, if they are whole bytes and at most 65,536 bits.
fn whole_bytes(bits: Number) -> Option<u32>
    ensures { result ≡ whole_bytes bits }
{
    match bits {
        Number::Fits(n) if 0 <= n && n <= 65536 => whole(n as u32),
        _ => None,
    }
}

/// This many bits in bytes, if they are whole bytes.
fn whole(bits: u32) -> Option<u32>
    ensures { result ≡ whole bits }
{
    if bits % 8 == 0 { Some(bits / 8) } else { None }
}

/// The bytes of a fragment of `size` bits from bit `offset`, if they are whole bytes that a fragment may have.
fn part(offset: Number, size: Number) -> Option<Fragment>
    ensures { result ≡ part_of offset size }
{
    let offset = whole_bytes(offset)?;
    let length = whole_bytes(size)?;
    Fragment::new(offset, length)
}

/// An expression, from the lexemes after `DW_OP_LLVM_arg, 0`.
fn argument_expression(lexemes: &[Lexeme]) -> Expression
    ensures { result ≡ argument_expression lexemes.now }
{
    match lexemes {
        [Lexeme::Close, ..] => Expression::Argument,
        [
            Lexeme::Comma,
            Lexeme::Word(Word::Fragment, _),
            Lexeme::Comma,
            Lexeme::Integer(offset),
            Lexeme::Comma,
            Lexeme::Integer(size),
            Lexeme::Close,
            ..
        ] => match part(*offset, *size) {
            Some(part) => Expression::PartOfArgument(part),
            None => Expression::Other,
        },
        _ => Expression::Other,
    }
}

/// An expression, from the lexemes after its opening bracket.
#[tactic(auto, unfolding(crate::specs::Operand::expression_of))]
fn expression(lexemes: &[Lexeme]) -> Expression
    ensures { result ≡ expression_of lexemes.now }
{
    match lexemes {
        [Lexeme::Close, ..] => Expression::Empty,
        [
            Lexeme::Word(Word::Argument, _),
            Lexeme::Comma,
            Lexeme::Integer(number),
            rest @ ..,
        ] => {
            if is_zero(*number) {
                argument_expression(rest)
            } else {
                Expression::Other
            }
        }
        [
            Lexeme::Word(Word::Fragment, _),
            Lexeme::Comma,
            Lexeme::Integer(offset),
            Lexeme::Comma,
            Lexeme::Integer(size),
            Lexeme::Close,
            ..
        ] => match part(*offset, *size) {
            Some(part) => Expression::Part(part),
            None => Expression::Other,
        },
        _ => Expression::Other,
    }
}

/// An expression operand, from the lexemes after its opening bracket, and the rest.
fn expression_operand(lexemes: &[Lexeme]) -> Option<(OperandForm, &[Lexeme])>
    ensures { Gives (λ x. (x.0, x.1.now)) result (expression_at lexemes.now) }
{
    let rest = behind_bracket(lexemes)?;
    Some((OperandForm::Expression(expression(lexemes)), rest))
}

/// A symbol operand, and the rest.
fn symbol<'a>(
    alloc: Global,
    line: &[u8],
    lexemes: &'a [Lexeme],
) -> Result<Option<(OperandForm, &'a [Lexeme])>, AllocError>
    ensures { IfOk result (λ read. Gives (λ x. (x.0, x.1.now)) read (symbol_at line.now lexemes.now)) }
{
    match lexemes {
        [Lexeme::Symbol(token), rest @ ..] => {
            let name = symbol_name(alloc, line, *token)?;
            Ok(Some((OperandForm::Symbol(name), rest)))
        }
        _ => Ok(None),
    }
}

/// An operand of a symbol, and the rest. The linked language alone has numbers behind symbols, constants of the pool
/// and halves.
fn symbol_by<'a>(
    alloc: Global,
    linked: bool,
    line: &[u8],
    half: Option<Half>,
    lexemes: &'a [Lexeme],
) -> Result<Option<(OperandForm, &'a [Lexeme])>, AllocError>
    ensures { IfOk result (λ read.
        Gives (λ x. (x.0, x.1.now)) read (symbol_by linked line.now half lexemes.now)) }
{
    if linked {
        address(alloc, line, half, lexemes)
    } else {
        symbol(alloc, line, lexemes)
    }
}

/// A symbol operand after `target-flags(..)`, from the lexemes after that word, and the rest.
fn flagged_symbol<'a>(
    alloc: Global,
    linked: bool,
    line: &[u8],
    lexemes: &'a [Lexeme],
) -> Result<Option<(OperandForm, &'a [Lexeme])>, AllocError>
    ensures { IfOk result (λ read. Gives (λ x. (x.0, x.1.now)) read (flagged_symbol_at linked line.now lexemes.now)) }
{
    match lexemes {
        [Lexeme::Open, rest @ ..] => match behind_bracket(rest) {
            Some(behind) => symbol_by(alloc, linked, line, half(rest), behind),
            None => Ok(None),
        },
        _ => Ok(None),
    }
}

/// The operand `dbg-instr-ref(K, O)`, from the lexemes after its word, and the rest.
fn reference(lexemes: &[Lexeme]) -> Option<(OperandForm, &[Lexeme])>
    ensures { Gives (λ x. (x.0, x.1.now)) result (reference_at lexemes.now) }
{
    match lexemes {
        [
            Lexeme::Open,
            Lexeme::Integer(number),
            Lexeme::Comma,
            Lexeme::Integer(operand),
            Lexeme::Close,
            rest @ ..,
        ] => {
            let pair = OperandPair {
                number: DebugNumber(counted(*number)),
                operand: OperandIndex(counted(*operand)),
            };
            Some((OperandForm::Reference(pair), rest))
        }
        _ => None,
    }
}

/// A register mask, from the lexemes after its word, and the rest.
fn mask(lexemes: &[Lexeme]) -> Option<(OperandForm, &[Lexeme])>
    ensures { Gives (λ x. (x.0, x.1.now)) result (mask_at lexemes.now) }
{
    match lexemes {
        [Lexeme::Open, rest @ ..] => Some((OperandForm::Mask, behind_bracket(rest)?)),
        _ => Some((OperandForm::Mask, lexemes)),
    }
}

/// A literal behind its type's name, or a register mask, from the lexemes after that name, and the rest.
fn literal(lexemes: &[Lexeme]) -> Option<(OperandForm, &[Lexeme])>
    ensures { Gives (λ x. (x.0, x.1.now)) result (literal_at lexemes.now) }
{
    match lexemes {
        [
            Lexeme::Integer(_) | Lexeme::Float | Lexeme::Word(_, _),
            rest @ ..,
        ] => { Some((OperandForm::Literal, rest)) }
        _ => mask(lexemes),
    }
}

/// An operand that begins with a type's name, from the lexemes after it, and the rest.
fn typed(linked: bool, lexemes: &[Lexeme]) -> Option<(OperandForm, &[Lexeme])>
    ensures { Gives (λ x. (x.0, x.1.now)) result (typed_at linked lexemes.now) }
{
    if linked {
        literal(lexemes)
    } else {
        mask(lexemes)
    }
}

/// A fixed stack object, and the rest.
fn fixed(linked: bool, n: u32, rest: &[Lexeme]) -> Option<(OperandForm, &[Lexeme])>
    ensures { Gives (λ x. (x.0, x.1.now)) result (fixed_at linked n rest.now) }
{
    if linked {
        Some((OperandForm::Fixed(n), rest))
    } else {
        None
    }
}

/// A register operand, and the rest.
fn register_operand(lexemes: &[Lexeme]) -> Option<(OperandForm, &[Lexeme])>
    ensures { Gives (λ x. (x.0, x.1.now)) result (register_operand_at lexemes.now) }
{
    match register(lexemes) {
        Some((form, rest)) => Some((OperandForm::Register(form), rest)),
        None => None,
    }
}

/// An operand that begins with a word, where `rest` are the lexemes after it, and the rest after the operand.
#[tactic(auto, unfolding(crate::specs::Operand::word_operand_at))]
fn word_operand<'a>(
    alloc: Global,
    linked: bool,
    line: &[u8],
    word: Word,
    rest: &'a [Lexeme],
) -> Result<Option<(OperandForm, &'a [Lexeme])>, AllocError>
    ensures { IfOk result (λ read. Gives (λ x. (x.0, x.1.now)) read (word_operand_at linked line.now word rest.now)) }
{
    match word {
        Word::Flag(_) | Word::InstrNumber | Word::Location => Ok(None),
        Word::TargetFlags => flagged_symbol(alloc, linked, line, rest),
        Word::InstrRef => Ok(reference(rest)),
        Word::TypeName => Ok(typed(linked, rest)),
        _ => Ok(mask(rest)),
    }
}

/// An operand, and the rest; `linked` is whether those of the linked language are read.
#[tactic(auto, unfolding(crate::specs::Operand::operand_at))]
pub fn operand<'a>(
    alloc: Global,
    linked: bool,
    line: &[u8],
    lexemes: &'a [Lexeme],
) -> Result<Option<(OperandForm, &'a [Lexeme])>, AllocError>
    ensures { IfOk result (λ read. Gives (λ x. (x.0, x.1.now)) read (operand_at linked line.now lexemes.now)) }
{
    match lexemes {
        [Lexeme::Word(Word::Flag(_), _), ..] => Ok(register_operand(lexemes)),
        [Lexeme::Word(word, _), rest @ ..] => word_operand(alloc, linked, line, *word, rest),
        [Lexeme::Register(_), ..] => Ok(register_operand(lexemes)),
        [Lexeme::Slot(slot), rest @ ..] => Ok(Some((OperandForm::Slot(*slot), rest))),
        [Lexeme::Block(block), rest @ ..] => Ok(Some((OperandForm::Block(*block), rest))),
        [Lexeme::Fixed(n), rest @ ..] => Ok(fixed(linked, *n, rest)),
        [Lexeme::Node(node), rest @ ..] => Ok(Some((OperandForm::Node(*node), rest))),
        [Lexeme::Expression, Lexeme::Open, rest @ ..] => Ok(expression_operand(rest)),
        [Lexeme::Integer(number), rest @ ..] => {
            Ok(Some((OperandForm::Integer(fitting(*number)), rest)))
        }
        [Lexeme::Constant(_) | Lexeme::Symbol(_), ..] => {
            symbol_by(alloc, linked, line, None, lexemes)
        }
        _ => Ok(None),
    }
}
