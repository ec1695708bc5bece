//! One number.

ghost use Rattle.std.specs.Prelude.{◌≡◌, ℕ, ◌≤◌, ◌↔◌, Some, IsTrue};
ghost use Rattle.std.specs.Fmt.{decimal};

use itoa::Buffer;

/// The number in a word; `None` if it is no number, or above the limit.
pub fn number(word: &str, limit: u64) -> Option<u64>
    ensures { (n : ℕ) → (result ≡ Some n) ↔ ((word.now ≡ decimal n) × (n ≤ limit)) }
{
    match word.parse::<u64>() {
        Ok(n) => within(word, n, limit),
        Err(_) => None,
    }
}

/// The number `n`, if the word is its decimal digits and it isn't above the limit.
fn within(word: &str, n: u64, limit: u64) -> Option<u64>
    ensures some { (m : ℕ) → result ≡ Some m → (m ≡ n) × (word.now ≡ decimal n) × (n ≤ limit) }
    ensures all { word.now ≡ decimal n → n ≤ limit → result ≡ Some n }
{
    if n <= limit && is_spelled(word, n) {
        Some(n)
    } else {
        None
    }
}

fn is_spelled(word: &str, n: u64) -> bool
    ensures { IsTrue result ↔ (word.now ≡ decimal n) }
{
    let mut buffer = Buffer::new();
    word == buffer.format(n)
}
