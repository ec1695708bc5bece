//! The values of numbers.

ghost use Rattle.std.specs.Prelude.{◌≡◌, ◌+◌, ◌*◌, ◌^◌, ◌<◌, ◌≤◌, SomeIff};
ghost use Rattle.read_token.specs.Number.{BEYOND, narrow_value, limited, is_number, unsigned, negated, sized, number_of};

use crate::lexeme::{BEYOND, Number};
use read_metadata::number::digit_value;
use read_metadata::read_lexer_crate::bytes::digits;

/// The value with one more digit, unless it is 2^128 or more.
fn longer(base: u128, value: u128, digit: u8) -> Option<u128>
    ensures { SomeIff result (value * base + digit < 2 ^ 128) (value * base + digit) }
{
    value.checked_mul(base)?.checked_add(u128::from(digit))
}

/// The value of digits in a base, unless it is 2^128 or more.
fn narrow_value(base: u128, digits: &[u8]) -> Option<u128>
    requires { 0 < base }
    ensures { result ≡ narrow_value base digits.now }
{
    let mut value = 0;
    for byte in digits {
        let Some(more) = longer(base, value, digit_value(*byte)) else {
            return None;
        };
        value = more;
    }
    Some(value)
}

/// The value of decimal digits that are a number or count; `BEYOND` if it is above the limit.
pub fn limited(digits: &[u8]) -> u32
    ensures value { result ≡ limited digits.now }
    ensures bound { result ≤ BEYOND }
{
    match narrow_value(10, digits) {
        Some(value) => value.min(u128::from(BEYOND)) as u32,
        None => BEYOND,
    }
}

/// Whether a text is digits, at least one, and nothing else.
pub fn is_number(text: &[u8]) -> bool
    ensures { result ≡ is_number text.now }
{
    !text.is_empty() && digits(text) == text.len()
}

/// An integer without a sign, from its absolute value.
fn unsigned(size: Option<u128>) -> Number
    ensures { result ≡ sized unsigned size }
{
    match size {
        Some(n) if n < 1 << 63 => Number::Fits(n as i64),
        Some(_) => Number::Large,
        None => Number::Wide,
    }
}

/// An integer after `-`, from its absolute value.
fn negated(size: Option<u128>) -> Number
    ensures { result ≡ sized negated size }
{
    match size {
        Some(0) => Number::Fits(0),
        Some(n) if n <= 1 << 63 => Number::Fits(-1 - (n - 1) as i64),
        Some(_) => Number::Large,
        None => Number::Wide,
    }
}

/// The value of an integer token.
pub fn number(text: &[u8]) -> Number
    ensures { result ≡ number_of text.now }
{
    match text {
        [b'0', b'x', digits @ ..] => unsigned(narrow_value(16, digits)),
        [b'-', digits @ ..] => negated(narrow_value(10, digits)),
        _ => unsigned(narrow_value(10, text)),
    }
}
