//! The names of functions.

ghost use Rattle.std.specs.Prelude.{◌≡◌, ◌++◌, OnOk};
ghost use Rattle.std.specs.List.{flat_map, list_all};
ghost use Rattle.mir_printer.specs.Spelling.{quoted_byte};
ghost use Rattle.mir_func_printer.specs.FuncText.{is_name_start, is_name_byte, is_plain_name, quoted_text, name_text};

use mir_printer::symbol::push_escaped;
use mir_printer::text::Text;
use std::alloc::AllocError;

/// Whether a name may begin with a byte without quotes: a letter or `_`.
fn is_name_start(b: u8) -> bool
    ensures { result ≡ is_name_start b }
{
    matches!(b, b'A'..=b'Z' | b'a'..=b'z' | b'_')
}

/// Whether a byte may be in a name without quotes: a letter, a digit, `_` or `.`.
fn is_name_byte(b: u8) -> bool
    ensures { result ≡ is_name_byte b }
{
    matches!(b, b'A'..=b'Z' | b'a'..=b'z' | b'_' | b'0'..=b'9' | b'.')
}

fn are_name_bytes(bytes: &[u8]) -> bool
    ensures { result ≡ list_all is_name_byte bytes.now }
{
    bytes.iter().all(|b| is_name_byte(*b))
}

/// Whether a name needs no quotes.
fn is_plain_name(name: &[u8]) -> bool
    ensures { result ≡ is_plain_name name.now }
{
    match name {
        [first, rest @ ..] => is_name_start(*first) && are_name_bytes(rest),
        [] => false,
    }
}

/// Appends the name of a function.
pub fn push_name(text: &mut Text, name: &[u8]) -> Result<(), AllocError>
    ensures { OnOk result (text.new ≡ text.old ++ name_text name.now) }
{
    if is_plain_name(name) {
        text.extend_from_slice(name)
    } else {
        push_quoted(text, name)
    }
}

/// Appends a name in double quotes.
fn push_quoted(text: &mut Text, name: &[u8]) -> Result<(), AllocError>
    ensures { OnOk result (text.new ≡ text.old ++ quoted_text name.now) }
{
    text.push(b'"')?;
    push_quoted_bytes(text, name)?;
    text.push(b'"')
}

fn push_quoted_bytes(text: &mut Text, name: &[u8]) -> Result<(), AllocError>
    ensures { OnOk result (text.new ≡ text.old ++ flat_map quoted_byte name.now) }
{
    for b in name {
        push_quoted_byte(text, *b)?;
    }
    Ok(())
}

/// Appends a byte in double quotes: itself if it is printable ASCII other than `"` and `\`, else in hexadecimal.
fn push_quoted_byte(text: &mut Text, b: u8) -> Result<(), AllocError>
    ensures { OnOk result (text.new ≡ text.old ++ quoted_byte b) }
{
    match b {
        b'"' | b'\\' => push_escaped(text, b),
        b' '..=b'~' => text.push(b),
        _ => push_escaped(text, b),
    }
}
