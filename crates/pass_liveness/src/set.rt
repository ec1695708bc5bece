//! Sets of places, as bit vectors.

ghost use Rattle.std.specs.Prelude.{◌≡◌, ℕ, ◌<◌, ◌||◌, ◌&&◌, not, nat_eq, false};
ghost use Rattle.std.specs.Prelude.{slice_index_or, IsTrue};
ghost use Rattle.pass_liveness.specs.Sets.{has_bit, gap, AreWords};

use crate::words::{clear_bit, has_bit, set_bit, unite};
use std::marker::Model;

/// The number of words of a set: bits for 256 slots and 4,128 registers.
const WORDS: usize = 69;

/// A set of places of a function (LLVM: `LivePhysRegs`). Only the function's liveness knows which place has which bit.
#[derive(Drop)]
pub struct PlaceSet {
    words: [u64; 69],
    /// The words from this index on are 0.
    used: usize,
}

impl Model for PlaceSet {
    ghost use Rattle.std.specs.Prelude.{List, ℕ};

    ghost Value = { List ℕ };

    ghost use Rattle.pass_liveness.specs.Sets.{IsSet};

    ghost view = { λ s. s.words };

    ghost invariant = { λ s. IsSet s.words s.used };
}

impl PlaceSet {
    /// The empty set. It takes no memory.
    pub fn new() -> PlaceSet
        ensures { (i : ℕ) → has_bit result i ≡ false }
    {
        PlaceSet {
            words: zeros(),
            used: 0,
        }
    }

    /// A copy of the set. It takes no memory.
    pub fn copy(&self) -> PlaceSet
        ensures { result ≡ self.now }
    {
        PlaceSet {
            words: self.words,
            used: self.used,
        }
    }

    /// Whether a bit is set. It takes no memory.
    pub fn has(&self, bit: usize) -> bool
        ensures { result ≡ has_bit self.now bit }
    {
        has_bit(&self.words, bit)
    }

    /// Sets a bit. It takes no memory.
    pub fn insert(&mut self, bit: usize)
        requires { bit < 4416 }
        ensures { (i : ℕ) → has_bit self.new i ≡ (nat_eq bit i || has_bit self.old i) }
    {
        set_bit(&mut self.words, bit);
        self.used = self.used.max(bit / 64 + 1);
    }

    /// Clears a bit. It takes no memory.
    pub fn remove(&mut self, bit: usize)
        requires { bit < 4416 }
        ensures { (i : ℕ) → has_bit self.new i ≡ (has_bit self.old i && not (nat_eq bit i)) }
    {
        clear_bit(&mut self.words, bit);
    }

    /// Clears all bits. It takes no memory.
    pub fn clear(&mut self)
        ensures { (i : ℕ) → has_bit self.new i ≡ false }
    {
        self.words = zeros();
        self.used = 0;
    }

    /// Adds the members of another set, and returns whether the set grew. It takes no memory.
    pub fn unite(&mut self, other: &PlaceSet) -> bool
        ensures all { (i : ℕ) → has_bit self.new i ≡ (has_bit self.old i || has_bit other.now i) }
        ensures grown { IsTrue result → gap self.new < gap self.old }
        ensures same { result ≡ false → self.new ≡ self.old }
        ensures words { AreWords self.new }
    {
        let grown = unite(&mut self.words, &other.words, other.used);
        self.used = self.used.max(other.used);
        grown
    }
}

/// The words of the empty set.
fn zeros() -> [u64; 69]
    ensures { (k : ℕ) → slice_index_or result k 0 ≡ 0 }
{
    [0; WORDS]
}
