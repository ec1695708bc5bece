//! Sizes of stack objects by the objects' numbers.

ghost use Rattle.std.specs.Prelude.{◌≡◌, ◌↔◌, ◌+◌, ◌≤◌, IfOk, IsTrue};
ghost use Rattle.mir_func.specs.Sound.{HasBytes};
ghost use Rattle.mir_func.specs.steps.Checks.{AreSizes};

use crate::object::{Object, Objects};
use rv64_instr::base_ids_crate::function_ids::ObjectId;
use std::alloc::{AllocError, Global};
use std::collections::BTreeMap;
use std::marker::Model;

/// Stack objects, with a map of their sizes for fast look-up. A contract sees their list.
#[derive(Drop)]
pub struct ObjectSizes {
    list: Objects,
    sizes: BTreeMap<u32, u32>,
}

impl Model for ObjectSizes {
    ghost use Rattle.std.specs.Prelude.{List};
    ghost use Rattle.mir_func.specs.declared.object.Object.{Object};

    ghost Value = { List Object };

    ghost use Rattle.mir_func.specs.steps.Checks.{AreSizes};

    ghost view = { λ s. s.list };

    ghost invariant = { λ s. AreSizes s.list s.sizes };
}

impl ObjectSizes {
    /// The sizes of these objects.
    pub fn new(alloc: Global, objects: &[Object]) -> Result<ObjectSizes, AllocError>
        ensures { IfOk result (λ s. s ≡ objects.now) }
    {
        let sizes = sizes_of(alloc, objects)?;
        Ok(ObjectSizes {
            list: Objects::from_slice(alloc, objects)?,
            sizes,
        })
    }

    /// Whether there is an object with a number, and it has `width` bytes from an offset on.
    pub fn has_bytes(&self, n: ObjectId, offset: u64, width: u64) -> bool
        ensures { IsTrue result ↔ HasBytes self.now n (offset + width) }
    {
        match self.sizes.get(&n.number()) {
            Some(size) => holds(u64::from(*size), offset, width),
            None => false,
        }
    }
}

/// Whether `size` bytes have `width` bytes from an offset on.
fn holds(size: u64, offset: u64, width: u64) -> bool
    ensures { IsTrue result ↔ (offset + width ≤ size) }
{
    offset <= size && width <= size - offset
}

/// The sizes by number. Of objects with one number the first counts, so it is inserted last.
fn sizes_of(alloc: Global, objects: &[Object]) -> Result<BTreeMap<u32, u32>, AllocError>
    ensures { IfOk result (AreSizes objects.now) }
{
    objects
        .iter()
        .rev()
        .map(|o| (o.id.number(), o.size))
        .collect(alloc)
}
