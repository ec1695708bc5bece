//! The text of names.

ghost use Rattle.std.specs.Prelude.{◌≡◌, ◌++◌, OnOk};
ghost use Rattle.listing_text.specs.Output.{name_byte, name_text};

use mir_printer::symbol::push_escaped;
use mir_printer::text::Text;
use std::alloc::AllocError;

/// Appends a name. A byte that isn't printable ASCII, a space, `"` and `\` are written as `\` and two hexadecimal
/// digits.
pub fn push_name(text: &mut Text, name: &[u8]) -> Result<(), AllocError>
    ensures { OnOk result (text.new ≡ text.old ++ name_text name.now) }
{
    for b in name {
        push_name_byte(text, *b)?;
    }
    Ok(())
}

fn push_name_byte(text: &mut Text, b: u8) -> Result<(), AllocError>
    ensures { OnOk result (text.new ≡ text.old ++ name_byte b) }
{
    match b {
        b'"' | b'\\' => push_escaped(text, b),
        b'!'..=b'~' => text.push(b),
        _ => push_escaped(text, b),
    }
}
