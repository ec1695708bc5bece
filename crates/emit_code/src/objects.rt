//! The offsets of stack objects from x2, looked up by object number.

ghost use Rattle.std.specs.Prelude.{◌≡◌, ℕ, ◌+◌, ◌≤◌, All, Option, option_map, IfOk};
ghost use Rattle.std.specs.Ordering.{nat_cmp};
ghost use Rattle.std.specs.BTreeMap.{get};
ghost use Rattle.mir_func.specs.Function.{FramedFunction};
ghost use Rattle.mir_func.specs.Limits.{MAX_FRAME};
ghost use Rattle.mir_func.specs.Objects.{object_of};
ghost use Rattle.emit_code.specs.Rule.{object_offset};
ghost use Rattle.emit_code.specs.steps.Plans.{AreOffsetsOf};

use base_ids::function_ids::ObjectId;
use mir_func::framed::Framed;
use mir_func::object::{Object, area};
use std::alloc::{AllocError, Global};
use std::collections::BTreeMap;

/// The offsets of the stack objects of a function from x2, in bytes.
#[derive(Drop)]
pub struct ObjectOffsets {
    /// An object's offset by its number.
    pub offsets: BTreeMap<u32, u32>,
    /// The offset of the first object: the bytes of the frame below the objects.
    pub own: u32,
}

impl ObjectOffsets {
    /// The offsets of the objects of a function. The error is out of memory.
    pub fn new(alloc: Global, framed: &Framed) -> Result<ObjectOffsets, AllocError>
        ensures { IfOk result (AreOffsetsOf framed.now) }
    {
        let objects = framed.objects.as_slice();
        let own = framed.size - area(objects) as u32;
        Ok(ObjectOffsets {
            offsets: offsets(alloc, objects, own)?,
            own,
        })
    }

    /// The offset of an object, and 0 for None.
    pub fn of(&self, object: Option<ObjectId>) -> u32
        ensures { (f : FramedFunction) → AreOffsetsOf f self.now → result ≡ object_offset f object }
    {
        match object {
            Some(id) => match self.offsets.get(&id.number()) {
                Some(offset) => *offset,
                None => self.own,
            },
            None => 0,
        }
    }
}

/// Of objects with the same number the first is found: it is inserted last.
fn offsets(alloc: Global, objects: &[Object], own: u32) -> Result<BTreeMap<u32, u32>, AllocError>
    requires own { own ≤ MAX_FRAME }
    requires objects { All (λ o. o.offset ≤ MAX_FRAME) objects.now }
    ensures { IfOk result (λ offsets. (n : ℕ) → get nat_cmp offsets n ≡ option_map (λ o. own + o.offset) (object_of
        objects.now n)) }
{
    let mut offsets = BTreeMap::new(alloc);
    let mut index = objects.len();
    while index > 0 {
        index -= 1;
        let object = &objects[index];
        offsets.insert(object.id.number(), own + object.offset as u32)?;
    }
    Ok(offsets)
}
