//! The offsets of a function's stack objects.

ghost use Rattle.std.specs.Prelude.{◌≡◌, IfOk};
ghost use Rattle.mir_func.specs.Objects.{offset_of};
ghost use Rattle.sem_interpreter.specs.Memory.{number_in};
ghost use Rattle.sem_interpreter.specs.Places.{ObjectsHold};

use base_ids::function_ids::ObjectId;
use indexmap::IndexMap;
use mir_func::object::Object;
use std::alloc::{AllocError, Global};
use std::marker::Model;

/// The offset of each object from the lowest byte that objects take, by the object's number.
#[derive(Drop)]
pub struct Offsets {
    offsets: IndexMap<u32, u64>,
}

impl Model for Offsets {
    ghost use Rattle.std.specs.Prelude.{ℕ, List};

    ghost Value = { List (ℕ × ℕ) };

    ghost view = { λ o. o.offsets.entries };
}

impl Offsets {
    /// The offsets of these objects.
    pub fn new(alloc: Global, objects: &[Object]) -> Result<Offsets, AllocError>
        ensures { IfOk result (λ made. ObjectsHold made (offset_of objects.now)) }
    {
        Ok(Offsets {
            offsets: offsets_of(alloc, objects)?,
        })
    }

    /// The offset of an object, or 0 if there is no object of this number.
    pub fn of(&self, n: ObjectId) -> u64
        ensures { result ≡ number_in self.now n }
    {
        self.offsets.get(&n.number()).copied().unwrap_or(0)
    }
}

/// The offsets by number. Of objects with one number the first counts, so it is inserted last.
fn offsets_of(alloc: Global, objects: &[Object]) -> Result<IndexMap<u32, u64>, AllocError>
    ensures { IfOk result (λ made. ObjectsHold made.entries (offset_of objects.now)) }
{
    objects
        .iter()
        .rev()
        .map(|o| (o.id.number(), o.offset))
        .collect(alloc)
}
