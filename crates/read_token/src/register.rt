//! Tokens that begin with `$` or `%`.

ghost use Rattle.std.specs.Prelude.{◌≡◌};
ghost use Rattle.read_metadata.specs.Field.{Spells};
ghost use Rattle.read_token.specs.Register.{
  two_digits,
  physical_of,
  register_of,
  virtual_of,
  slot_of,
  block_operand_of,
  fixed_of,
  constant_of,
  behind_stack,
  behind_fixed,
  behind_const,
  behind_bb,
  numbered_of,
  percent_behind,
  percent_of,
};

use crate::lexeme::{Lexeme, RegisterName};
use crate::number::{is_number, limited};
use crate::word::named_number;
use base_ids::function_ids::{BlockId, SlotId};
use read_metadata::rv64_instr_crate::reg::{Reg, physical};

/// The register whose number is spelled with two digits.
fn two_digits(tens: u8, ones: u8) -> Option<Reg>
    ensures { result ≡ two_digits tens ones }
{
    match (tens, ones) {
        (b'1'..=b'3', b'0'..=b'9') => {
            physical(10 * u32::from(tens - b'0') + u32::from(ones - b'0'))
        }
        _ => None,
    }
}

/// The register in `$x0` to `$x31`.
fn physical_name(text: &[u8]) -> Option<Reg>
    ensures { result ≡ physical_of text.now }
{
    match text {
        [b'$', b'x', ones @ b'0'..=b'9'] => physical(u32::from(*ones - b'0')),
        [b'$', b'x', tens, ones] => two_digits(*tens, *ones),
        _ => None,
    }
}

/// The register named by a token that begins with `$`.
#[tactic(auto, unfolding(crate::specs::Register::register_of))]
pub fn register(text: &[u8]) -> RegisterName
    ensures { result ≡ register_of text.now }
{
    match physical_name(text) {
        Some(register) => RegisterName::Physical(register),
        None if text == b"$noreg".as_slice() => RegisterName::Absent,
        None => RegisterName::Other,
    }
}

/// A virtual register, from the text after `%`.
fn virtual_register(text: &[u8]) -> Lexeme
    ensures { result ≡ virtual_of text.now }
{
    if is_number(text) {
        Lexeme::Register(RegisterName::Virtual(limited(text)))
    } else {
        Lexeme::Other
    }
}

/// A stack entry, from the text after `%stack.`.
fn slot(text: &[u8]) -> Lexeme
    ensures { result ≡ slot_of text.now }
{
    match named_number(text) {
        Some(number) => Lexeme::Slot(SlotId(number)),
        None => Lexeme::Other,
    }
}

/// A block, from the text after `%bb.`.
fn block_operand(text: &[u8]) -> Lexeme
    ensures { result ≡ block_operand_of text.now }
{
    match named_number(text) {
        Some(number) => Lexeme::Block(BlockId(number)),
        None => Lexeme::Other,
    }
}

/// The text after `stack.`.
fn behind_stack(text: &[u8]) -> Option<&[u8]>
    ensures { Spells result (behind_stack text.now) }
{
    match text {
        [b's', b't', b'a', b'c', b'k', b'.', name @ ..] => Some(name),
        _ => None,
    }
}

/// A fixed stack object, from the text after `%fixed-stack.`.
fn fixed(text: &[u8]) -> Lexeme
    ensures { result ≡ fixed_of text.now }
{
    if is_number(text) {
        Lexeme::Fixed(limited(text))
    } else {
        Lexeme::Other
    }
}

/// A constant of the function's constant pool, from the text after `%const.`.
fn constant(text: &[u8]) -> Lexeme
    ensures { result ≡ constant_of text.now }
{
    if is_number(text) {
        Lexeme::Constant(limited(text))
    } else {
        Lexeme::Other
    }
}

/// The text after `fixed-stack.`.
fn behind_fixed(text: &[u8]) -> Option<&[u8]>
    ensures { Spells result (behind_fixed text.now) }
{
    match text {
        [b'f', b'i', b'x', b'e', b'd', b'-', rest @ ..] => behind_stack(rest),
        _ => None,
    }
}

/// The text after `const.`.
fn behind_const(text: &[u8]) -> Option<&[u8]>
    ensures { Spells result (behind_const text.now) }
{
    match text {
        [b'c', b'o', b'n', b's', b't', b'.', rest @ ..] => Some(rest),
        _ => None,
    }
}

/// The text after `bb.`.
fn behind_bb(text: &[u8]) -> Option<&[u8]>
    ensures { Spells result (behind_bb text.now) }
{
    match text {
        [b'b', b'b', b'.', name @ ..] => Some(name),
        _ => None,
    }
}

/// A fixed stack object, a constant, or a virtual register, from the text after `%`.
fn numbered(text: &[u8]) -> Lexeme
    ensures { result ≡ numbered_of text.now }
{
    if let Some(rest) = behind_fixed(text) {
        return fixed(rest);
    }
    match behind_const(text) {
        Some(rest) => constant(rest),
        None => virtual_register(text),
    }
}

/// The lexeme of a token that begins with `%`, from the text after that.
#[tactic(auto, unfolding(crate::specs::Register::percent_behind))]
fn percent_behind(text: &[u8]) -> Lexeme
    ensures { result ≡ percent_behind text.now }
{
    if let Some(name) = behind_stack(text) {
        return slot(name);
    }
    match behind_bb(text) {
        Some(name) => block_operand(name),
        None => numbered(text),
    }
}

/// The lexeme of a token that begins with `%`.
pub fn percent(text: &[u8]) -> Lexeme
    ensures { result ≡ percent_of text.now }
{
    match text {
        [_, rest @ ..] => percent_behind(rest),
        [] => Lexeme::Other,
    }
}
