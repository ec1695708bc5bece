ghost use Rattle.std.specs.Prelude.{◌≡◌, ◌++◌, ◌<◌, OnOk};
ghost use Rattle.listing_text.specs.Hex.{hex_digit, hex_byte, hex_lines, address_text};

use mir_printer::text::Text;
use std::alloc::AllocError;

/// The number of bytes on a line.
const LINE: usize = 32;

/// Appends bytes in hexadecimal, 32 to a line. Each line ends with a line feed. Without bytes there is no line.
pub fn push_hex_lines(text: &mut Text, bytes: &[u8]) -> Result<(), AllocError>
    ensures { OnOk result (text.new ≡ text.old ++ hex_lines 0 bytes.now) }
{
    let mut column = 0;
    for b in bytes {
        push_hex_byte(text, *b)?;
        column += 1;
        if column == LINE {
            text.push(b'\n')?;
            column = 0;
        }
    }
    if column > 0 {
        text.push(b'\n')?;
    }
    Ok(())
}

/// Appends an address in eight hexadecimal digits.
pub fn push_address(text: &mut Text, address: u32) -> Result<(), AllocError>
    ensures { OnOk result (text.new ≡ text.old ++ address_text address) }
{
    push_hex_byte(text, (address >> 24) as u8)?;
    push_hex_byte(text, (address >> 16 & 0xff) as u8)?;
    push_hex_byte(text, (address >> 8 & 0xff) as u8)?;
    push_hex_byte(text, (address & 0xff) as u8)
}

fn push_hex_byte(text: &mut Text, b: u8) -> Result<(), AllocError>
    ensures { OnOk result (text.new ≡ text.old ++ hex_byte b) }
{
    text.extend_from_slice(&[hex_digit(b / 16), hex_digit(b % 16)])
}

fn hex_digit(n: u8) -> u8
    requires { n < 16 }
    ensures { result ≡ hex_digit n }
{
    if n < 10 { b'0' + n } else { b'a' + (n - 10) }
}
