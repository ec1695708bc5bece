//! Numbers in fields that may be greater than those of nodes.

ghost use Rattle.std.specs.Prelude.{◌≡◌, ◌<◌, ◌≤◌, ◌^◌, IfSome};
ghost use Rattle.read_debug_nodes.specs.Number.{
  spelled_within,
  zero_alone,
  unsigned_within,
  integer_within,
  below_zero,
  not_negative,
  negative_of,
  enumerator_value,
};

use read_metadata::number::digit_value;

/// The value of digits in a base, unless it is above `most`.
fn spelled_within(base: u64, most: u64, digits: &[u8]) -> Option<u64>
    requires positive { 0 < base }
    requires small { base ≤ 16 }
    ensures value { result ≡ spelled_within base most digits.now }
    ensures bound { IfSome result (λ n. n ≤ most) }
{
    let limit = most as u128;
    let mut value = 0u128;
    for byte in digits {
        value = value * base as u128 + digit_value(*byte) as u128;
        if value > limit {
            return None;
        }
    }
    Some(value as u64)
}

/// The number, if it is 0.
fn zero_alone(number: Option<u64>) -> Option<u64>
    ensures { result ≡ zero_alone number }
{
    match number {
        Some(0) => Some(0),
        _ => None,
    }
}

/// The value of an integer token without a sign, unless it is above `most`.
fn unsigned_within(most: u64, text: &[u8]) -> Option<u64>
    ensures { result ≡ unsigned_within most text.now }
{
    match text {
        [b'0', b'x', digits @ ..] => spelled_within(16, most, digits),
        _ => spelled_within(10, most, text),
    }
}

/// The value of an integer token, unless it is negative or above `most`.
pub(crate) fn integer_within(most: u64, text: &[u8]) -> Option<u64>
    ensures { result ≡ integer_within most text.now }
{
    match text {
        [b'-', digits @ ..] => zero_alone(spelled_within(10, most, digits)),
        _ => unsigned_within(most, text),
    }
}

/// The value of an enumerator.
#[derive(Clone, Copy, Debug)]
pub struct EnumeratorValue {
    /// The value, if it isn't negative.
    pub value: u64,
    /// The value, if it is negative.
    pub negative: Option<i64>,
}

/// The greatest magnitude of a negative value.
const MOST_NEGATIVE: u64 = 1 << 63;

/// A value that isn't negative, if there is one.
fn not_negative(number: Option<u64>) -> Option<EnumeratorValue>
    ensures { result ≡ not_negative number }
{
    match number {
        Some(value) => Some(EnumeratorValue {
            value,
            negative: None,
        }),
        None => None,
    }
}

/// The value behind a minus, from its magnitude.
fn below_zero(magnitude: u64) -> Option<EnumeratorValue>
    requires { magnitude ≤ 2 ^ 63 }
    ensures { result ≡ below_zero magnitude }
{
    if magnitude == 0 {
        return not_negative(Some(0));
    }
    Some(EnumeratorValue {
        value: 0,
        negative: Some(-1 - ((magnitude - 1) as i64)),
    })
}

/// The value of digits behind a minus, unless it is below the least.
fn negative_of(digits: &[u8]) -> Option<EnumeratorValue>
    ensures { result ≡ negative_of (spelled_within 10 (2 ^ 63) digits.now) }
{
    match spelled_within(10, MOST_NEGATIVE, digits) {
        Some(magnitude) => below_zero(magnitude),
        None => None,
    }
}

/// The value of an integer token as that of an enumerator, unless it is out of range.
pub(crate) fn enumerator_value(text: &[u8]) -> Option<EnumeratorValue>
    ensures { result ≡ enumerator_value text.now }
{
    match text {
        [b'-', digits @ ..] => negative_of(digits),
        _ => not_negative(unsigned_within(u64::MAX, text)),
    }
}
