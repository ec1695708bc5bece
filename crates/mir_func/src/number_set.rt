//! Sets of numbers.

ghost use Rattle.std.specs.Prelude.{◌≡◌, ◌↔◌, ℕ, Contains, IfOk, IsTrue};
ghost use Rattle.std.specs.Ordering.{nat_cmp};
ghost use Rattle.std.specs.BTreeSet.{IsFromIterResult};
ghost use Rattle.mir_func.specs.Sound.{AreApart};

use std::alloc::{AllocError, Global};
use std::collections::BTreeSet;
use std::marker::Model;

/// Numbers in an order, with a set for fast look-up. A contract sees their list.
#[derive(Drop)]
pub struct Numbers {
    list: Vec<u32>,
    set: BTreeSet<u32>,
}

impl Model for Numbers {
    ghost use Rattle.std.specs.Prelude.{List, ℕ};
    ghost use Rattle.std.specs.Ordering.{nat_cmp};
    ghost use Rattle.std.specs.BTreeSet.{IsFromIterResult};

    ghost Value = { List ℕ };

    ghost view = { λ n. n.list.items };

    ghost invariant = { λ n. IsFromIterResult nat_cmp n.list.items n.set };
}

impl Numbers {
    /// These numbers.
    pub fn new(alloc: Global, list: Vec<u32>) -> Result<Numbers, AllocError>
        ensures { IfOk result (λ n. n ≡ list.items) }
    {
        let set = number_set(alloc, list.as_slice())?;
        Ok(Numbers { list, set })
    }

    /// The numbers, in their order.
    pub fn as_slice(&self) -> &[u32]
        ensures { result.now ≡ self.now }
    {
        self.list.as_slice()
    }

    /// Whether a number is one of them.
    pub fn contains(&self, n: u32) -> bool
        ensures { IsTrue result ↔ Contains self.now n }
    {
        self.set.contains(&n)
    }

    /// Whether none occurs twice.
    pub fn are_apart(&self) -> bool
        ensures { IsTrue result ↔ AreApart self.now }
    {
        self.set.len() == self.list.len()
    }
}

fn number_set(alloc: Global, numbers: &[u32]) -> Result<BTreeSet<u32>, AllocError>
    ensures { IfOk result (IsFromIterResult nat_cmp numbers.now) }
{
    numbers.iter().copied().collect(alloc)
}
