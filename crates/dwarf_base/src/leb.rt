//! Numbers in LEB128 (DWARF 5 section 7.6): the unique shortest encoding of a number.

ghost use Rattle.std.specs.Prelude.{◌≡◌, ℕ, List, ◌≤◌, ◌<◌, ◌^◌, ◌*◌, ◌++◌, ℤ, length};
ghost use Rattle.dwarf_base.specs.Leb.{uleb_of, sleb_of, groups, group, IsLeb, unsigned_value, signed_value};

use std::marker::Model;

/// The most bytes of a 64-bit number in LEB128.
const LONGEST: usize = 10;

/// A LEB128 number of at most ten bytes. A contract sees it as the list of its bytes.
#[derive(Debug, Drop)]
pub struct Leb {
    /// Its bytes, and then zeros.
    bytes: [u8; 10],
    /// The number of its bytes.
    len: u8,
}

impl Model for Leb {
    ghost use Rattle.std.specs.Prelude.{ℕ, List, take, ◌≤◌};

    ghost Value = { List ℕ };

    ghost view = { λ l. take l.len l.bytes };

    ghost invariant = { λ l. l.len ≤ 10 };
}

impl Leb {
    /// Its bytes.
    pub fn as_slice(&self) -> &[u8]
        ensures { result.now ≡ self.now }
    {
        &self.bytes[..self.len as usize]
    }

    /// The number of its bytes: at most ten.
    pub fn len(&self) -> usize
        ensures exact { result ≡ length self.now }
        ensures within { result ≤ 10 }
    {
        self.len as usize
    }
}

/// The shortest unsigned LEB128 encoding of a number (DWARF 5 section 7.6).
pub fn uleb(v: u64) -> Leb
    ensures bytes { result ≡ uleb_of v }
    ensures spells { IsLeb result × (unsigned_value result ≡ v) }
    ensures shortest { (bytes : List ℕ) → IsLeb bytes → unsigned_value bytes ≡ v → length result ≤ length bytes }
    ensures longest { length result ≤ 10 }
{
    spelled(v, 0x80, false)
}

/// The shortest signed LEB128 encoding of a number (DWARF 5 section 7.6).
pub fn sleb(v: i64) -> Leb
    ensures bytes { result ≡ sleb_of v }
    ensures spells { IsLeb result × (signed_value result ≡ v) }
    ensures shortest { (bytes : List ℕ) → IsLeb bytes → signed_value bytes ≡ v → length result ≤ length bytes }
    ensures longest { length result ≤ 10 }
{
    if v < 0 {
        spelled((-1 - v) as u64, 0x40, true)
    } else {
        spelled(v as u64, 0x40, false)
    }
}

/// LEB128 encodings are prefix-free, and distinct numbers have distinct shortest encodings.
pub fn one_spelling()
    ensures whole { (a b x y : List ℕ) → IsLeb a → IsLeb b → a ++ x ≡ b ++ y → (a ≡ b) × (x ≡ y) }
    ensures unsigned { (m n : ℕ) → uleb_of m ≡ uleb_of n → m ≡ n }
    ensures signed { (v w : ℤ) → sleb_of v ≡ sleb_of w → v ≡ w }
{}

/// The groups of seven bits of a number, the last below a limit. Those of a complement are inverted.
fn spelled(v: u64, limit: u64, complement: bool) -> Leb
    requires limit { 64 ≤ limit }
    requires septet { limit ≤ 128 }
    requires room { v < 128 ^ 9 * limit }
    ensures { result ≡ groups 9 limit complement v }
{
    let mut bytes = [0; LONGEST];
    let mut len: usize = 0;
    let mut rest = v;
    while rest >= limit {
        bytes[len] = 0x80 + septet((rest % 0x80) as u8, complement);
        len += 1;
        rest /= 0x80;
    }
    bytes[len] = septet(rest as u8, complement);
    Leb {
        bytes,
        len: len as u8 + 1,
    }
}

/// Seven bits, inverted if they are a complement's.
fn septet(bits: u8, complement: bool) -> u8
    requires { bits < 128 }
    ensures value { result ≡ group complement bits }
    ensures septet { result < 128 }
{
    if complement { 0x7f - bits } else { bits }
}
