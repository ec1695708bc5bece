//! Readers of a number at the front of bytes, with the bytes after it. They accept only the shortest encoding of a
//! number in range.

ghost use Rattle.std.specs.Prelude.{◌≡◌, ◌≢◌, ℕ, ℤ, List, ◌<◌, ◌^◌, ◌++◌, length, Some, IfSome, IfNone};
ghost use Rattle.std.specs.Prelude.{FitsSigned};
ghost use Rattle.std.specs.Int.{w32, w64, to_le_bytes};
ghost use Rattle.dwarf_base.specs.Leb.{uleb_of, sleb_of, IsLeb, unsigned_value, signed_value};

use crate::leb::{sleb, uleb};

/// The most bytes of a 64-bit number in LEB128.
const LONGEST: usize = 10;
/// The bits of a signed 64-bit number above its lowest seven are a number no less than this,
const LEAST: i64 = -0x100_0000_0000_0000;
/// and below this.
const LIMIT: i64 = 0x100_0000_0000_0000;

/// The unsigned LEB128 number below 2^64 at the front, in its shortest encoding, and the bytes after it. `None` if and
/// only if there is none (DWARF 5 section 7.6).
pub fn split_uleb(bytes: &[u8]) -> Option<(u64, &[u8])>
    ensures some { IfSome result (λ r. bytes.now ≡ uleb_of r.0 ++ r.1.now) }
    ensures fits { IfSome result (λ r. r.0 < 2 ^ 64) }
    ensures none { IfNone result ((n : ℕ) (rest : List ℕ) → n < 2 ^ 64 → bytes.now ≢ uleb_of n ++ rest) }
{
    let value = unsigned_front(&bytes[..bytes.len().min(LONGEST)])?;
    let spelled = uleb(value);
    let rest = bytes.strip_prefix(spelled.as_slice())?;
    Some((value, rest))
}

/// The signed 64-bit LEB128 number at the front, in its shortest encoding, and the bytes after it. `None` if and only
/// if there is none (DWARF 5 section 7.6).
pub fn split_sleb(bytes: &[u8]) -> Option<(i64, &[u8])>
    ensures some { IfSome result (λ r. bytes.now ≡ sleb_of r.0 ++ r.1.now) }
    ensures fits { IfSome result (λ r. FitsSigned w64 r.0) }
    ensures none { IfNone result ((v : ℤ) (rest : List ℕ) → FitsSigned w64 v → bytes.now ≢ sleb_of v ++ rest) }
{
    let value = signed_front(&bytes[..bytes.len().min(LONGEST)])?;
    let spelled = sleb(value);
    let rest = bytes.strip_prefix(spelled.as_slice())?;
    Some((value, rest))
}

/// The little-endian number of four bytes at the front, and the bytes after it. `None` if and only if there are fewer
/// than four bytes.
pub fn split_u32(bytes: &[u8]) -> Option<(u32, &[u8])>
    ensures some { IfSome result (λ r. bytes.now ≡ to_le_bytes w32 r.0 ++ r.1.now) }
    ensures fits { IfSome result (λ r. r.0 < 2 ^ 32) }
    ensures none { IfNone result (length bytes.now < 4) }
{
    match bytes {
        [a, b, c, d, rest @ ..] => Some((u32::from_le_bytes([*a, *b, *c, *d]), rest)),
        _ => None,
    }
}

/// The value of the unsigned LEB128 number at the front, if it is below 2^64. Its encoding needn't be the shortest.
fn unsigned_front(bytes: &[u8]) -> Option<u64>
    ensures { (front rest : List ℕ) → IsLeb front → bytes.now ≡ front ++ rest → unsigned_value front < 2 ^ 64
        → result ≡ Some (unsigned_value front) }
{
    let (byte, rest) = bytes.split_first()?;
    if *byte < 0x80 {
        return Some(*byte as u64);
    }
    let above = unsigned_front(rest)?;
    if above <= u64::MAX / 0x80 {
        Some((byte % 0x80) as u64 + 0x80 * above)
    } else {
        None
    }
}

/// The value of the signed LEB128 number at the front, if it has 64 bits. Its encoding needn't be the shortest.
fn signed_front(bytes: &[u8]) -> Option<i64>
    ensures { (front rest : List ℕ) → IsLeb front → bytes.now ≡ front ++ rest → FitsSigned w64 (signed_value front)
        → result ≡ Some (signed_value front) }
{
    let (byte, rest) = bytes.split_first()?;
    if *byte < 0x40 {
        return Some(*byte as i64);
    }
    if *byte < 0x80 {
        return Some(*byte as i64 - 0x80);
    }
    let above = signed_front(rest)?;
    if LEAST <= above && above < LIMIT {
        Some((byte % 0x80) as i64 + 0x80 * above)
    } else {
        None
    }
}
