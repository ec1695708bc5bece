//! The tracked entities of a function, each listed once.

ghost use Rattle.std.specs.Prelude.{◌≡◌, ◌++◌, ◌∷◌, IfOk, OnOk, []};
ghost use Rattle.value_live_ins.specs.Gathering.{MayTrack, IsGathered, Added};

use crate::key::{Key, key_of};
use std::alloc::{AllocError, Global};
use std::collections::HashSet;
use value_solver::tracked::{Tracked, TrackedItems};

/// A list of tracked entities without duplicates.
#[derive(Drop)]
pub struct TrackedItemSet {
    /// The entities, in order of first appearance.
    pub things: TrackedItems,
    /// Their keys.
    seen: HashSet<Key>,
}

impl TrackedItemSet {
    /// The empty list.
    pub fn new(alloc: Global) -> TrackedItemSet
        ensures gathered { IsGathered result }
        ensures empty { result.things ≡ [] }
    {
        TrackedItemSet {
            things: TrackedItems::new(alloc),
            seen: HashSet::new(alloc),
        }
    }

    /// Appends an entity, unless it is in the list. Whether it was appended. The error is out of memory.
    pub fn add(&mut self, thing: Tracked) -> Result<bool, AllocError>
        requires gathered { IsGathered self.old }
        requires may { MayTrack thing }
        ensures gathered { OnOk result (IsGathered self.new) }
        ensures added { IfOk result (Added self.old.things self.new.things thing) }
    {
        if !self.seen.insert(key_of(&thing))? {
            return Ok(false);
        }
        push(&mut self.things, &thing)?;
        Ok(true)
    }

    /// The list of entities.
    pub fn into_things(self) -> TrackedItems
        ensures { result ≡ self.things }
    {
        let TrackedItemSet { things, seen } = self;
        drop(seen);
        things
    }
}

/// Appends an entity.
fn push(things: &mut TrackedItems, thing: &Tracked) -> Result<(), AllocError>
    ensures { OnOk result (things.new ≡ things.old ++ thing.now ∷ []) }
{
    let one = [*thing];
    things.extend_from_slice(&one)
}
