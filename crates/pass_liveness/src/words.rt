//! Bits in lists of 64-bit words.

ghost use Rattle.std.specs.Prelude.{◌≡◌, ℕ, ◌*◌, ◌/◌, ◌<◌, ◌≤◌, ◌≢◌, ◌||◌, ◌&&◌, not, nat_eq, false, length, IsTrue};
ghost use Rattle.std.specs.Prelude.{slice_index};
ghost use Rattle.pass_liveness.specs.Sets.{has_bit, gap};

/// Whether a bit is set; a bit past the words isn't.
pub fn has_bit(words: &[u64], bit: usize) -> bool
    ensures { result ≡ has_bit words.now bit }
{
    match words.get(bit / 64) {
        None => false,
        Some(word) => (*word >> (bit % 64)) & 1 == 1,
    }
}

/// Sets a bit.
pub fn set_bit(words: &mut [u64], bit: usize)
    requires { bit < 64 * length words.old }
    ensures bits { (i : ℕ) → has_bit words.new i ≡ (nat_eq bit i || has_bit words.old i) }
    ensures others { (k : ℕ) → k ≢ bit / 64 → slice_index words.new k ≡ slice_index words.old k }
{
    words[bit / 64] |= 1 << (bit % 64);
}

/// Clears a bit.
pub fn clear_bit(words: &mut [u64], bit: usize)
    requires { bit < 64 * length words.old }
    ensures bits { (i : ℕ) → has_bit words.new i ≡ (has_bit words.old i && not (nat_eq bit i)) }
    ensures zeros { (k : ℕ) → slice_index words.old k ≡ 0 → slice_index words.new k ≡ 0 }
{
    words[bit / 64] &= !(1 << (bit % 64));
}

/// Sets the bits that are set in others too, and returns whether that changed any. The other words from the index
/// `used` on are 0.
pub fn unite(words: &mut [u64], others: &[u64], used: usize) -> bool
    requires long { length others.now ≡ length words.old }
    requires used { used ≤ length words.old }
    requires zeros { (k : ℕ) → used ≤ k → slice_index others.now k ≡ 0 }
    ensures all { (i : ℕ) → has_bit words.new i ≡ (has_bit words.old i || has_bit others.now i) }
    ensures grown { IsTrue result → gap words.new < gap words.old }
    ensures same { result ≡ false → words.new ≡ words.old }
    ensures left { (k : ℕ) → used ≤ k → slice_index words.new k ≡ slice_index words.old k }
{
    let mut grown = false;
    for k in 0..used {
        let all = words[k] | others[k];
        if all != words[k] {
            words[k] = all;
            grown = true;
        }
    }
    grown
}
