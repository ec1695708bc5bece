//! Sets of numbers.

ghost use Rattle.std.specs.Prelude.{◌≡◌, [], length, OnOk, OnErr};
ghost use Rattle.read_body.specs.FirstUseOrder.{is_met, met};

use std::alloc::{AllocError, Global};
use std::collections::BTreeSet;
use std::marker::Model;

/// A set of numbers. A contract sees it as their list, in the order of first insertion.
#[derive(Drop)]
pub struct FirstUseOrder {
    list: Vec<u64>,
    set: BTreeSet<u64>,
}

impl Model for FirstUseOrder {
    ghost use Rattle.std.specs.Prelude.{List, ℕ};
    ghost use Rattle.read_body.specs.FirstUseOrder.{HasAll};

    ghost Value = { List ℕ };

    ghost view = { λ m. m.list.items };

    ghost invariant = { λ m. HasAll m.set m.list.items };
}

impl FirstUseOrder {
    /// The empty set. It takes no memory.
    pub fn new(alloc: Global) -> FirstUseOrder
        ensures { result ≡ [] }
    {
        FirstUseOrder {
            list: Vec::new(alloc),
            set: BTreeSet::new(alloc),
        }
    }

    /// Whether a number is in the set.
    pub fn has(&self, n: u64) -> bool
        ensures { result ≡ is_met n self.now }
    {
        self.set.contains(&n)
    }

    /// How many numbers are in the set.
    pub fn len(&self) -> usize
        ensures { result ≡ length self.now }
    {
        self.list.len()
    }

    /// Inserts a number. If memory runs out, the set is unchanged.
    pub fn meet(&mut self, n: u64) -> Result<(), AllocError>
        ensures ok { OnOk result (self.new ≡ met n self.old) }
        ensures err { OnErr result (self.new ≡ self.old) }
    {
        if self.set.contains(&n) {
            return Ok(());
        }
        self.list.reserve(1)?;
        self.set.insert(n)?;
        self.list.push(n)?;
        Ok(())
    }
}
