//! Quoted texts.

ghost use Rattle.std.specs.Prelude.{◌≡◌, ◌-◌, ◌∷◌, ◌<◌, ◌≤◌, length, IfOk, IfSome};
ghost use Rattle.std.specs.List.{prefix_len};
ghost use Rattle.read_metadata.specs.Text.{escape, unescaped, is_not_zero, text_value, inside_quotes};

use crate::number::digit_value;
use base_list::List;
use rv64_instr::name::Name;
use std::alloc::{AllocError, Global};

/// The byte of an escape at the front: `\` and two hexadecimal digits.
fn escape(text: &[u8]) -> Option<u8>
    ensures value { result ≡ escape text.now }
    ensures within { IfSome result (λ _. 3 ≤ length text.now) }
{
    match text {
        [b'\\', high, low, ..] if high.is_ascii_hexdigit() && low.is_ascii_hexdigit() => {
            Some(16 * digit_value(*high) + digit_value(*low))
        }
        _ => None,
    }
}

/// The first byte of a text, an escape or a byte as it is, and the text after it.
fn first_byte(text: &[u8]) -> (u8, &[u8])
    requires { 0 < length text.now }
    ensures step { unescaped text.now ≡ result.0 ∷ unescaped result.1.now }
    ensures shorter { length result.1.now < length text.now }
{
    match escape(text) {
        Some(byte) => (byte, &text[3..]),
        None => (text[0], &text[1..]),
    }
}

/// A text with escapes replaced by their bytes.
pub fn unescaped(alloc: Global, text: &[u8]) -> Result<Name, AllocError>
    ensures { IfOk result (λ bytes. bytes ≡ unescaped text.now) }
{
    let mut bytes = List::new(alloc);
    let mut rest = text;
    while !rest.is_empty() {
        let (byte, behind) = first_byte(rest);
        bytes.push(byte)?;
        rest = behind;
    }
    Ok(bytes)
}

/// The number of bytes before the first zero byte.
fn before_zero(bytes: &[u8]) -> usize
    ensures value { result ≡ prefix_len is_not_zero bytes.now }
    ensures within { result ≤ length bytes.now }
{
    bytes.iter().take_while(|b| **b != 0).count()
}

/// The value of a text: with escapes replaced by their bytes, up to the first zero byte.
pub fn text_value(alloc: Global, text: &[u8]) -> Result<Name, AllocError>
    ensures { IfOk result (λ name. name ≡ text_value text.now) }
{
    let bytes = unescaped(alloc, text)?;
    let bytes = bytes.as_slice();
    List::from_slice(alloc, &bytes[..before_zero(bytes)])
}

/// A text without the quotes around it.
pub fn inside_quotes(text: &[u8]) -> &[u8]
    ensures { result.now ≡ inside_quotes text.now }
{
    if text.len() < 2 {
        &text[..0]
    } else {
        &text[1..text.len() - 1]
    }
}
