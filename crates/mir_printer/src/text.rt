//! Text that grows at its end.

ghost use Rattle.std.specs.Prelude.{◌≡◌, ◌++◌, OnOk, OnErr};
ghost use Rattle.std.specs.Fmt.{decimal, signed_decimal};
ghost use Rattle.mir_printer.specs.Growth.{GrownFrom};

use base_list::List;
use itoa::{Buffer, Integer};
use std::alloc::AllocError;

/// Text that grows at its end, by its bytes.
pub type Text = List<u8>;

/// Appends a number in decimal.
pub fn push_decimal<I: Integer>(text: &mut Text, n: I) -> Result<(), AllocError>
    ensures ok { OnOk result (text.new ≡ text.old ++ I.text n) }
    ensures err { OnErr result (text.new ≡ text.old) }
{
    let mut buffer = Buffer::new();
    text.extend_from_slice(buffer.format(n).as_bytes())
}

/// Appends a signed number in decimal.
pub fn push_signed(text: &mut Text, n: i64) -> Result<(), AllocError>
    ensures ok { OnOk result (text.new ≡ text.old ++ signed_decimal n) }
    ensures err { OnErr result (text.new ≡ text.old) }
{
    push_decimal(text, n)
}

/// Appends a string.
pub fn push_str(text: &mut Text, string: &str) -> Result<(), AllocError>
    ensures ok { OnOk result (text.new ≡ text.old ++ string.now) }
    ensures err { OnErr result (text.new ≡ text.old) }
{
    text.extend_from_slice(string.as_bytes())
}

/// Appends a label and a number.
pub fn push_numbered(text: &mut Text, label: &str, n: u32) -> Result<(), AllocError>
    ensures ok { OnOk result (text.new ≡ text.old ++ (label.now ++ decimal n)) }
    ensures err { OnErr result (GrownFrom text.old text.new) }
{
    push_str(text, label)?;
    push_decimal(text, n)
}
