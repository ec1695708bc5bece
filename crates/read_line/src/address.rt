//! Operands that are symbols with a number added to their address, parsed.

ghost use Rattle.std.specs.Prelude.{◌≡◌, IfOk};
ghost use Rattle.mir_func.specs.rv64_instr.declared.symbol.Symbol.{Symbol};
ghost use Rattle.read_line.specs.Read.{Gives};
ghost use Rattle.read_line.specs.Address.{
  added,
  taken,
  is_negative,
  signed_at,
  addend_at,
  addend_or_zero,
  address_with,
  whole_address,
  address_form,
  address_behind,
  address_at,
  half_of,
};

use crate::form::{AddressForm, OperandForm};
use mir_func::rv64_instr_crate::name::Name;
use mir_func::rv64_instr_crate::symbol::{Half, Symbol};
use read_token::lexeme::{Lexeme, Number, Word};
use read_token::symbol::symbol_name;
use std::alloc::{AllocError, Global};

/// What is written behind a symbol: nothing, or a number, which is `None` if it doesn't fit 32 bits signed.
type Addend = Option<Option<i32>>;

/// The number behind `+`, if it fits 32 bits signed.
fn added(number: Number) -> Option<i32>
    ensures { result ≡ added number }
{
    match number {
        Number::Fits(n) if 0 <= n && n < 1 << 31 => Some(n as i32),
        _ => None,
    }
}

/// The negative of the number behind `-`, if it fits 32 bits signed.
fn taken(number: Number) -> Option<i32>
    ensures { result ≡ taken number }
{
    match number {
        Number::Fits(0) => Some(0),
        Number::Fits(n) if 0 < n && n <= 1 << 31 => Some(-1 - (n - 1) as i32),
        _ => None,
    }
}

/// Whether an integer that fits 64 bits is negative.
fn is_negative(number: Number) -> bool
    ensures { result ≡ is_negative number }
{
    match number {
        Number::Fits(n) => n < 0,
        Number::Large | Number::Wide => false,
    }
}

/// The number that a sign and an integer add, and the rest; `None` if the integer has a sign of its own.
fn signed(number: Number, addend: Option<i32>, rest: &[Lexeme]) -> Option<(Addend, &[Lexeme])>
    ensures { Gives (λ x. (x.0, x.1.now)) result (signed_at number addend rest.now) }
{
    if is_negative(number) {
        None
    } else {
        Some((Some(addend), rest))
    }
}

/// `+ N`, `- N` or nothing behind a symbol, and the rest.
fn addend(lexemes: &[Lexeme]) -> Option<(Addend, &[Lexeme])>
    ensures { Gives (λ x. (x.0, x.1.now)) result (addend_at lexemes.now) }
{
    match lexemes {
        [Lexeme::Plus, Lexeme::Integer(number), rest @ ..] => {
            signed(*number, added(*number), rest)
        }
        [Lexeme::Minus, Lexeme::Integer(number), rest @ ..] => {
            signed(*number, taken(*number), rest)
        }
        [Lexeme::Plus | Lexeme::Minus, ..] => None,
        _ => Some((None, lexemes)),
    }
}

/// The number that is added to a symbol's address: 0 if none is written.
fn addend_or_zero(addend: Addend) -> Option<i32>
    ensures { result ≡ addend_or_zero addend }
{
    match addend {
        None => Some(0),
        Some(addend) => addend,
    }
}

/// A symbol with the number that is added to its address.
fn address_with(symbol: Symbol, addend: Addend) -> AddressForm
    ensures { result ≡ address_with symbol addend }
{
    AddressForm {
        symbol,
        addend: addend_or_zero(addend),
    }
}

/// An operand of a global without flags of a half.
fn global_address(name: Name, addend: Addend) -> OperandForm
    ensures { result ≡ whole_address (Symbol.Global name) addend }
{
    match addend {
        None => OperandForm::Symbol(name),
        Some(number) => { OperandForm::Address(address_with(Symbol::Global(name), Some(number))) }
    }
}

/// An operand of a symbol without flags of a half.
fn whole_address(symbol: Symbol, addend: Addend) -> OperandForm
    ensures { result ≡ whole_address symbol addend }
{
    match symbol {
        Symbol::Global(name) => global_address(name, addend),
        Symbol::Constant(n) => OperandForm::Address(address_with(Symbol::Constant(n), addend)),
    }
}

/// An operand of a symbol: a half of its address, or all of it.
fn address_form(half: Option<Half>, symbol: Symbol, addend: Addend) -> OperandForm
    ensures { result ≡ address_form half symbol addend }
{
    match half {
        None => whole_address(symbol, addend),
        Some(half) => OperandForm::Part(half, address_with(symbol, addend)),
    }
}

/// The same with the rest, from the lexemes behind the symbol.
fn address_behind(
    half: Option<Half>,
    symbol: Symbol,
    lexemes: &[Lexeme],
) -> Option<(OperandForm, &[Lexeme])>
    ensures { Gives (λ x. (x.0, x.1.now)) result (address_behind half symbol lexemes.now) }
{
    match addend(lexemes) {
        Some((addend, rest)) => Some((address_form(half, symbol, addend), rest)),
        None => None,
    }
}

/// An operand of a symbol or of a constant of the pool in the linked language, and the rest.
pub fn address<'a>(
    alloc: Global,
    line: &[u8],
    half: Option<Half>,
    lexemes: &'a [Lexeme],
) -> Result<Option<(OperandForm, &'a [Lexeme])>, AllocError>
    ensures { IfOk result (λ read. Gives (λ x. (x.0, x.1.now)) read (address_at line.now half lexemes.now)) }
{
    match lexemes {
        [Lexeme::Symbol(token), rest @ ..] => {
            let name = symbol_name(alloc, line, *token)?;
            Ok(address_behind(half, Symbol::Global(name), rest))
        }
        [Lexeme::Constant(n), rest @ ..] => Ok(address_behind(half, Symbol::Constant(*n), rest)),
        _ => Ok(None),
    }
}

/// The half that the flags of an operand name, from the lexemes after their opening bracket.
pub fn half(lexemes: &[Lexeme]) -> Option<Half>
    ensures { result ≡ half_of lexemes.now }
{
    match lexemes {
        [Lexeme::Word(Word::HighPart, _), Lexeme::Close, ..] => Some(Half::Upper),
        [Lexeme::Word(Word::LowPart, _), Lexeme::Close, ..] => Some(Half::Lower),
        _ => None,
    }
}
