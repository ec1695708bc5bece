//! The fields of relocations.

ghost use Rattle.std.specs.Prelude.{◌≡◌, ◌+◌, ◌≤◌, IsTrue, length};
ghost use Rattle.std.specs.Int.{w32, w64, to_le_bytes};
ghost use Rattle.elf_relocation.specs.declared.kind.RelocationKind.TheVariants.{Call};
ghost use Rattle.elf_relocation.specs.Applied.{filled_at, patched};
ghost use Rattle.elf_relocation.specs.Fields.{field_size, is_in_range};
ghost use Rattle.elf_relocation.specs.Fields.{with_lower, with_store_lower, with_upper};

use crate::kind::RelocationKind;
use elf_object::number::u32_at;

/// Fills the field at an offset with a value.
pub fn fill(bytes: &mut [u8], at: usize, kind: RelocationKind, value: u64)
    requires within { at + field_size kind ≤ length bytes.old }
    requires range { IsTrue (is_in_range kind value) }
    ensures { bytes.new ≡ filled_at kind value at bytes.old }
{
    match kind {
        RelocationKind::Address32 => write_word(bytes, at, value as u32),
        RelocationKind::Address64 => write_double(bytes, at, value),
        RelocationKind::Call => fill_call(bytes, at, value),
        RelocationKind::Upper => {
            let word = u32_at(bytes, at);
            write_word(bytes, at, with_upper(value, word));
        }
        RelocationKind::Lower => {
            let word = u32_at(bytes, at);
            write_word(bytes, at, with_lower(value, word));
        }
        RelocationKind::StoreLower => {
            let word = u32_at(bytes, at);
            write_word(bytes, at, with_store_lower(value, word));
        }
    }
}

/// Fills the two words of a call at an offset.
fn fill_call(bytes: &mut [u8], at: usize, value: u64)
    requires { at + 8 ≤ length bytes.old }
    ensures { bytes.new ≡ filled_at Call value at bytes.old }
{
    let upper = u32_at(bytes, at);
    let lower = u32_at(bytes, at + 4);
    write_word(bytes, at, with_upper(value, upper));
    write_word(bytes, at + 4, with_lower(value, lower));
}

/// Writes four bytes at an offset.
fn write_word(bytes: &mut [u8], at: usize, word: u32)
    requires { at + 4 ≤ length bytes.old }
    ensures { bytes.new ≡ patched at (to_le_bytes w32 word) bytes.old }
{
    bytes[at..at + 4].copy_from_slice(&word.to_le_bytes());
}

/// Writes eight bytes at an offset.
fn write_double(bytes: &mut [u8], at: usize, value: u64)
    requires { at + 8 ≤ length bytes.old }
    ensures { bytes.new ≡ patched at (to_le_bytes w64 value) bytes.old }
{
    bytes[at..at + 8].copy_from_slice(&value.to_le_bytes());
}

/// A word of the U format with the upper half of a value.
fn with_upper(value: u64, word: u32) -> u32
    ensures { result ≡ with_upper value word }
{
    let half = ((value / 0x1000 + value / 0x800 % 2) % 0x10_0000) as u32;
    half * 0x1000 + word % 0x1000
}

/// A word of the I format with the lower half of a value.
fn with_lower(value: u64, word: u32) -> u32
    ensures { result ≡ with_lower value word }
{
    let half = (value % 0x1000) as u32;
    half * 0x10_0000 + word % 0x10_0000
}

/// A word of the S format with the lower half of a value.
fn with_store_lower(value: u64, word: u32) -> u32
    ensures { result ≡ with_store_lower value word }
{
    let high = (value / 0x20 % 0x80) as u32;
    let low = (value % 0x20) as u32;
    high * 0x200_0000 + word / 0x1000 % 0x2000 * 0x1000 + low * 0x80 + word % 0x80
}
