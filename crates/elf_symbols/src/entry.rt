//! The entries of tables. A symbol has 24 bytes, and so has a relocation (Elf64_Sym, Elf64_Rela).

ghost use Rattle.std.specs.Prelude.{◌≡◌, ◌+◌, ◌<◌, ◌≤◌, length, drop, slice_index};

/// The bytes of a table from the entry at an offset on.
pub fn entry(table: &[u8], at: usize) -> &[u8]
    requires { at + 24 ≤ length table.now }
    ensures bytes { result.now ≡ drop at table.now }
    ensures long { 24 ≤ length result.now }
{
    let (_, rest) = table.split_at(at);
    rest
}

/// The byte at an offset.
pub fn byte_at(bytes: &[u8], at: usize) -> u8
    requires { at < length bytes.now }
    ensures { result ≡ slice_index bytes.now at }
{
    bytes[at]
}
