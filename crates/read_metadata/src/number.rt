//! The numbers of nodes and in fields.

ghost use Rattle.std.specs.Prelude.{◌≡◌, ◌<◌, ◌≤◌};
ghost use Rattle.std.specs.Char.{digit_value};
ghost use Rattle.read_metadata.specs.Number.{spelled, zero_alone, integer_of, node_number};

use base_ids::limits;
use base_ids::metadata::NodeId;

/// The greatest number that is accepted.
const MAX_NUMBER: u64 = limits::MAX_NUMBER as u64;

/// The value of a digit, where letters are 10 and up, and 36 for any other byte.
pub fn digit_value(byte: u8) -> u8
    ensures value { result ≡ digit_value byte }
    ensures bound { result ≤ 36 }
{
    match byte {
        b'0'..=b'9' => byte - b'0',
        b'A'..=b'Z' => byte - b'A' + 10,
        b'a'..=b'z' => byte - b'a' + 10,
        _ => 36,
    }
}

/// The value of digits in a base, unless it is above the limit.
pub fn spelled(base: u64, digits: &[u8]) -> Option<u32>
    requires positive { 0 < base }
    requires small { base ≤ 16 }
    ensures { result ≡ spelled base digits.now }
{
    let mut value = 0;
    for byte in digits {
        value = value * base + u64::from(digit_value(*byte));
        if value > MAX_NUMBER {
            return None;
        }
    }
    Some(value as u32)
}

/// The number, if it is 0.
fn zero_alone(number: Option<u32>) -> Option<u32>
    ensures { result ≡ zero_alone number }
{
    match number {
        Some(0) => Some(0),
        _ => None,
    }
}

/// The value of an integer token, unless it is negative or above the limit.
pub fn integer(text: &[u8]) -> Option<u32>
    ensures { result ≡ integer_of text.now }
{
    match text {
        [b'0', b'x', digits @ ..] => spelled(16, digits),
        [b'-', digits @ ..] => zero_alone(spelled(10, digits)),
        _ => spelled(10, text),
    }
}

/// The number of a node token, unless it is above the limit.
pub fn node_number(text: &[u8]) -> Option<NodeId>
    ensures { result ≡ node_number text.now }
{
    match text {
        [_, digits @ ..] => Some(NodeId(spelled(10, digits)?)),
        [] => None,
    }
}
