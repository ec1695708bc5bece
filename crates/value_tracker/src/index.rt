//! The positions of tracked entities in their list.

ghost use Rattle.std.specs.Prelude.{
  ◌≡◌,
  ◌<◌,
  ◌+◌,
  ◌++◌,
  ◌∷◌,
  [],
  List,
  take,
  IfOk,
  OnOk,
  length,
  slice_get,
  Some,
  slice_index,
};
ghost use Rattle.std.specs.HashMap.{get};
ghost use Rattle.mir_substitution.specs.Index.{is_key};
ghost use Rattle.value_solver.specs.declared.tracked.Tracked.{Tracked};
ghost use Rattle.value_tracker.specs.LocationTracker.{class_at, number_class};
ghost use Rattle.value_tracker.specs.Things.{IndexesBelow, Indexes};

use mir_func::debug_substitution::OperandPair;
use std::alloc::{AllocError, Global};
use std::collections::HashMap;
use value_solver::tracked::Tracked;

/// The positions of constants and pairs in a list of tracked entities.
#[derive(Drop)]
pub struct TrackedIndex {
    /// The positions of constants, by their number modulo 2^64.
    pub numbers: HashMap<u64, usize>,
    /// The positions of pairs, by debug instruction number and operand index.
    pub pairs: HashMap<(u32, usize), usize>,
}

/// The index of a list. The error is out of memory.
pub fn index_of(alloc: Global, things: &[Tracked]) -> Result<TrackedIndex, AllocError>
    ensures { IfOk result (Indexes things.now) }
{
    let mut index = TrackedIndex {
        numbers: HashMap::new(alloc),
        pairs: HashMap::new(alloc),
    };
    for (i, thing) in things.iter().enumerate() {
        index.add(i, *thing)?;
    }
    Ok(index)
}

impl TrackedIndex {
    /// Adds the entity at position i.
    fn add(&mut self, i: usize, thing: Tracked) -> Result<(), AllocError>
        ensures { OnOk result ((things : List Tracked) → slice_get things i ≡ Some thing →
            IndexesBelow i things self.old → IndexesBelow (i + 1) things self.new) }
    {
        match thing {
            Tracked::Number(c) => {
                self.numbers.insert(c, i)?;
            }
            Tracked::Pair(q) => {
                self.pairs.insert(key(q), i)?;
            }
            Tracked::Register(_) => {}
            Tracked::Slot(_) => {}
            Tracked::Part(_) => {}
        }
        Ok(())
    }
}

/// The class at an index in a list, or 0 for None.
fn class_at(settled: &[usize], place: Option<usize>) -> usize
    ensures { result ≡ class_at settled.now place }
{
    match place {
        None => 0,
        Some(i) => class_of(settled, i),
    }
}

fn class_of(settled: &[usize], i: usize) -> usize
    ensures { result ≡ slice_index settled.now i }
{
    if i < settled.len() { settled[i] } else { 0 }
}

/// The class of a constant at the start of a block, by the classes of all entities there.
pub fn number_class(index: &TrackedIndex, settled: &[usize], n: u64) -> usize
    ensures { result ≡ number_class index.now settled.now n }
{
    class_at(settled, index.numbers.get(&n).copied())
}

/// The class of a pair at the start of a block, by the classes of all entities there.
pub fn pair_class(index: &TrackedIndex, settled: &[usize], number: u32, operand: usize) -> usize
    ensures { result ≡ class_at settled.now (get is_key index.now.pairs (number, operand)) }
{
    class_at(settled, index.pairs.get(&(number, operand)).copied())
}

/// The lookup key of a pair.
pub fn key(q: OperandPair) -> (u32, usize)
    ensures { result ≡ (q.number, q.operand) }
{
    (q.number.number(), q.operand.number() as usize)
}
