//! Lists of numbers in which the index of a number is found in constant time.

ghost use Rattle.std.specs.Prelude.{◌≡◌, ◌<◌, ℕ, length, IfOk};
ghost use Rattle.std.specs.HashMap.{get};
ghost use Rattle.pass_liveness.specs.Index.{index_in, Finds};

use std::alloc::{AllocError, Global};
use std::collections::HashMap;
use std::marker::Model;

/// A list of numbers with a table of their indices. Its model is the list.
#[derive(Drop)]
pub struct Index {
    list: Vec<u32>,
    found: HashMap<u32, u32>,
}

impl Model for Index {
    ghost use Rattle.std.specs.Prelude.{List, ℕ};

    ghost Value = { List ℕ };

    ghost use Rattle.pass_liveness.specs.Index.{Finds};

    ghost view = { λ n. n.list.items };

    ghost invariant = { λ n. Finds n.list.items n.found };
}

impl Index {
    /// Builds the index of these numbers.
    pub fn new(alloc: Global, list: Vec<u32>) -> Result<Index, AllocError>
        requires { length list.items < 4294967296 }
        ensures { IfOk result (λ n. n ≡ list.items) }
    {
        let found = first_places(alloc, list.as_slice())?;
        Ok(Index { list, found })
    }

    /// The first index of a number, if the list has it. It takes no memory.
    pub fn find(&self, n: u32) -> Option<usize>
        ensures { result ≡ index_in self.now n }
    {
        match self.found.get(&n) {
            None => None,
            Some(i) => Some(*i as usize),
        }
    }
}

/// The first index of each number.
fn first_places(alloc: Global, list: &[u32]) -> Result<HashMap<u32, u32>, AllocError>
    requires { length list.now < 4294967296 }
    ensures { IfOk result (Finds list.now) }
{
    let mut found = HashMap::new(alloc);
    for i in 0..list.len() {
        if !found.contains_key(&list[i]) {
            found.insert(list[i], i as u32)?;
        }
    }
    Ok(found)
}
