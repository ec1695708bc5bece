//! The values of a constant of the pool.

ghost use Rattle.std.specs.Prelude.{◌≡◌, ◌*◌, ◌+◌, ◌-◌, ◌^◌};
ghost use Rattle.std.specs.List.{list_all};
ghost use Rattle.std.specs.Char.{is_ascii_digit};
ghost use Rattle.mir_pool.specs.Pool.{bits_of};
ghost use Rattle.read_metadata.specs.Number.{value_behind};
ghost use Rattle.read_declarations.specs.Constants.{
  within,
  number_up_to,
  negated,
  integer_in,
  of_type,
  typed_or,
  typed_value,
  is_alignment,
  alignment_of,
  id_of,
};

use crate::constant_line::from_index;
use mir_pool::constant::IntegerType;
use read_metadata::number::{digit_value, spelled};

/// An integer of a type.
#[derive(Clone, Copy, Debug, PartialEq, Eq)]
pub struct TypedValue {
    pub integer: IntegerType,
    /// Its value without a sign.
    pub value: u128,
}

/// The number behind one more digit, if it is at most `most`.
fn next_value(value: u128, digit: u128, most: u128) -> Option<u128>
    ensures { result ≡ within most (value * 10 + digit) }
{
    if most < digit {
        return None;
    }
    let left = (most - digit) / 10;
    if left < value {
        return None;
    }
    Some(value * 10 + digit)
}

/// The number that digits spell, if it is at most `most`.
fn small_value(most: u128, digits: &[u8]) -> Option<u128>
    ensures { result ≡ within most (value_behind 10 0 digits.now) }
{
    let mut value = 0u128;
    for byte in digits {
        match next_value(value, u128::from(digit_value(*byte)), most) {
            Some(next) => value = next,
            None => return None,
        }
    }
    Some(value)
}

fn are_digits(text: &[u8]) -> bool
    ensures { result ≡ list_all is_ascii_digit text.now }
{
    text.iter().all(|b| b.is_ascii_digit())
}

/// The number that these digits spell, if it is at most `most`.
fn number_up_to(most: u128, digits: &[u8]) -> Option<u128>
    ensures { result ≡ number_up_to most digits.now }
{
    if 0 < digits.len() && are_digits(digits) {
        small_value(most, digits)
    } else {
        None
    }
}

/// The greatest integer of a type without a sign.
fn greatest(integer: IntegerType) -> u128
    ensures { result ≡ 2 ^ bits_of integer - 1 }
{
    match integer {
        IntegerType::Bits8 => 255,
        IntegerType::Bits16 => 65_535,
        IntegerType::Bits32 => 4_294_967_295,
        IntegerType::Bits64 => 18_446_744_073_709_551_615,
        IntegerType::Bits128 => 340_282_366_920_938_463_463_374_607_431_768_211_455,
    }
}

/// The absolute value of the least integer of a type with a sign.
fn least(integer: IntegerType) -> u128
    ensures { result ≡ 2 ^ (bits_of integer - 1) }
{
    match integer {
        IntegerType::Bits8 => 128,
        IntegerType::Bits16 => 32_768,
        IntegerType::Bits32 => 2_147_483_648,
        IntegerType::Bits64 => 9_223_372_036_854_775_808,
        IntegerType::Bits128 => 170_141_183_460_469_231_731_687_303_715_884_105_728,
    }
}

/// The negative of a number in two's complement, as an integer of a type without a sign.
fn negated(integer: IntegerType, n: u128) -> u128
    ensures { result ≡ negated integer n }
{
    if n == 0 {
        0
    } else {
        greatest(integer).saturating_sub(n - 1)
    }
}

/// The integer of a type that a text spells, signed or unsigned, as one without a sign.
fn integer_in(integer: IntegerType, text: &[u8]) -> Option<u128>
    ensures { result ≡ integer_in integer text.now }
{
    match text {
        [] => None,
        [b'-', digits @ ..] => match number_up_to(least(integer), digits) {
            Some(n) => Some(negated(integer, n)),
            None => None,
        },
        [_, ..] => number_up_to(greatest(integer), text),
    }
}

/// A value of a type, if there is one.
fn of_type(integer: IntegerType, value: Option<u128>) -> Option<TypedValue>
    ensures { result ≡ of_type integer value }
{
    match value {
        Some(value) => Some(TypedValue { integer, value }),
        None => None,
    }
}

/// The value behind the name of its type, or what it is otherwise.
fn typed_or(
    name: &[u8],
    integer: IntegerType,
    text: &[u8],
    other: Option<TypedValue>,
) -> Option<TypedValue>
    ensures { result ≡ typed_or name.now integer text.now other }
{
    if text.starts_with(name) {
        of_type(integer, integer_in(integer, from_index(text, name.len())))
    } else {
        other
    }
}

/// The value of a constant: an integer of 8, 16, 32, 64 or 128 bits behind its type.
pub(crate) fn typed_value(text: &[u8]) -> Option<TypedValue>
    ensures { result ≡ typed_value text.now }
{
    let bits128 = typed_or(b"i128 ", IntegerType::Bits128, text, None);
    let bits64 = typed_or(b"i64 ", IntegerType::Bits64, text, bits128);
    let bits32 = typed_or(b"i32 ", IntegerType::Bits32, text, bits64);
    let bits16 = typed_or(b"i16 ", IntegerType::Bits16, text, bits32);
    typed_or(b"i8 ", IntegerType::Bits8, text, bits16)
}

/// Whether the text is 1, 2, 4, 8 or 16.
fn is_alignment(text: &[u8]) -> bool
    ensures { result ≡ is_alignment text.now }
{
    text == b"1".as_slice()
        || text == b"2".as_slice()
        || text == b"4".as_slice()
        || text == b"8".as_slice()
        || text == b"16".as_slice()
}

/// The alignment of a constant in bytes.
pub(crate) fn alignment_of(text: &[u8]) -> Option<u32>
    ensures { result ≡ alignment_of text.now }
{
    if is_alignment(text) {
        spelled(10, text)
    } else {
        None
    }
}

/// The number of a constant, from 0 to 2^30 - 1.
pub(crate) fn id_of(text: &[u8]) -> Option<u32>
    ensures { result ≡ id_of text.now }
{
    if 0 < text.len() && are_digits(text) {
        spelled(10, text)
    } else {
        None
    }
}
