//! Symbols, and the quotes of names.

ghost use Rattle.std.specs.Prelude.{◌≡◌, ◌++◌, ◌∷◌, [], ◌<◌, ◌/◌, ◌%◌, ◌&&◌, not, OnOk, OnErr};
ghost use Rattle.std.specs.List.{flat_map, list_all};
ghost use Rattle.mir_printer.specs.Growth.{GrownFrom};
ghost use Rattle.mir_printer.specs.Spelling.{is_bare, is_empty, quoted_byte, symbol_text, upper_hex_digit};

use crate::text::{Text, push_str};
use std::alloc::AllocError;

/// Appends a symbol: `@` and its name, in double quotes if it needs them.
pub fn push_symbol(text: &mut Text, name: &[u8]) -> Result<(), AllocError>
    ensures ok { OnOk result (text.new ≡ text.old ++ symbol_text name.now) }
    ensures err { OnErr result (GrownFrom text.old text.new) }
{
    push_str(text, "@")?;
    if is_bare_name(name) {
        text.extend_from_slice(name)
    } else {
        push_quoted(text, name)
    }
}

/// Whether the name needs no quotes.
fn is_bare_name(name: &[u8]) -> bool
    ensures { result ≡ (not (is_empty name.now) && list_all is_bare name.now) }
{
    !name.is_empty() && are_bare(name)
}

fn are_bare(name: &[u8]) -> bool
    ensures { result ≡ list_all is_bare name.now }
{
    name.iter().all(|b| is_bare(*b))
}

/// Whether the byte may be in a name without quotes: a letter, a digit, `_`, `.`, `-` or `$`.
fn is_bare(b: u8) -> bool
    ensures { result ≡ is_bare b }
{
    matches!(b, b'A'..=b'Z' | b'a'..=b'z' | b'0'..=b'9' | b'_' | b'.' | b'-' | b'$')
}

/// Appends a name in double quotes.
fn push_quoted(text: &mut Text, name: &[u8]) -> Result<(), AllocError>
    ensures ok { OnOk result (text.new ≡ text.old ++ (34 ∷ (flat_map quoted_byte name.now ++ 34 ∷ []))) }
    ensures err { OnErr result (GrownFrom text.old text.new) }
{
    push_str(text, "\"")?;
    push_quoted_bytes(text, name)?;
    push_str(text, "\"")
}

fn push_quoted_bytes(text: &mut Text, name: &[u8]) -> Result<(), AllocError>
    ensures ok { OnOk result (text.new ≡ text.old ++ flat_map quoted_byte name.now) }
    ensures err { OnErr result (GrownFrom text.old text.new) }
{
    for b in name {
        push_quoted_byte(text, *b)?;
    }
    Ok(())
}

fn push_quoted_byte(text: &mut Text, b: u8) -> Result<(), AllocError>
    ensures ok { OnOk result (text.new ≡ text.old ++ quoted_byte b) }
    ensures err { OnErr result (text.new ≡ text.old) }
{
    match b {
        b'"' | b'\\' => push_escaped(text, b),
        b' '..=b'~' => text.push(b),
        _ => push_escaped(text, b),
    }
}

/// Appends `\` and the byte in two hexadecimal digits.
pub fn push_escaped(text: &mut Text, b: u8) -> Result<(), AllocError>
    ensures ok { OnOk result (text.new ≡ text.old ++ 92 ∷ upper_hex_digit (b / 16) ∷ upper_hex_digit (b % 16) ∷ []) }
    ensures err { OnErr result (text.new ≡ text.old) }
{
    text.extend_from_slice(&[b'\\', hex_digit(b / 16), hex_digit(b % 16)])
}

fn hex_digit(n: u8) -> u8
    requires { n < 16 }
    ensures { result ≡ upper_hex_digit n }
{
    if n < 10 { b'0' + n } else { b'A' + (n - 10) }
}
