//! Whether stack objects are those of a sound function.

ghost use Rattle.std.specs.Prelude.{◌≡◌, ◌↔◌, ◌+◌, ◌^◌, ◌<◌, ◌≤◌, map, length, All, Contains, Some, IfOk, IsTrue};
ghost use Rattle.mir_func.specs.Limits.{MAX_SLOTS};
ghost use Rattle.mir_func.specs.Objects.{
  ALIGNMENTS,
  local_offsets,
  block_size,
  local_count,
  AreLaidFrom,
  AreLaid,
  ArePlaced,
  IsPlaced,
  IsFixedAt,
};
ghost use Rattle.mir_func.specs.Sound.{IsLocalOffset, IsFixedOffset, IsSoundObject};
ghost use Rattle.mir_func.specs.steps.Checks.{AreSoundObjects};

use crate::limits::ALIGNMENTS;
use crate::number_set::Numbers;
use crate::object::{Object, counted, end_past, place_of, placed_area, reach_after, up_to};
use rv64_instr::base_ids_crate::limits::MAX_NUMBER;
use std::alloc::{AllocError, Global};

/// Whether each object has a number of its own, and the size, alignment and offset that an object must have.
pub fn are_objects_sound(alloc: Global, objects: &[Object]) -> Result<bool, AllocError>
    requires { length objects.now ≤ MAX_SLOTS }
    ensures { IfOk result (λ sound. IsTrue sound ↔ AreSoundObjects objects.now) }
{
    let ids = Numbers::new(alloc, object_numbers(alloc, objects)?)?;
    if !ids.are_apart() {
        return Ok(false);
    }
    if !are_each_sound(objects) {
        return Ok(false);
    }
    Ok(are_laid(objects))
}

/// The numbers of objects, in order.
fn object_numbers(alloc: Global, objects: &[Object]) -> Result<Vec<u32>, AllocError>
    ensures { IfOk result (λ ids. ids.items ≡ map (λ o. o.id) objects.now) }
{
    objects.iter().map(|o| o.id.number()).collect(alloc)
}

fn are_each_sound(objects: &[Object]) -> bool
    ensures { IsTrue result ↔ All IsSoundObject objects.now }
{
    objects.iter().all(|o| is_object_sound(o))
}

/// Whether an object has a valid size, alignment and offsets.
fn is_object_sound(o: &Object) -> bool
    ensures { IsTrue result ↔ IsSoundObject o.now }
{
    o.size <= MAX_NUMBER
        && is_alignment(o.align)
        && is_local_offset(o.local_offset)
        && is_fixed_offset(o.fixed_offset, o.local_offset)
}

/// Whether a local offset, if there is one, is within its limits.
fn is_local_offset(local: Option<u32>) -> bool
    ensures { IsTrue result ↔ IsLocalOffset local }
{
    match local {
        Some(offset) => 0 < offset && offset <= MAX_NUMBER,
        None => true,
    }
}

/// Whether an offset from the stack pointer at entry, if there is one, is within its limits, without a local offset.
fn is_fixed_offset(fixed: Option<i32>, local: Option<u32>) -> bool
    ensures { IsTrue result ↔ IsFixedOffset fixed local }
{
    match fixed {
        Some(offset) => offset.unsigned_abs() <= MAX_NUMBER && local.is_none(),
        None => true,
    }
}

fn is_alignment(align: u32) -> bool
    ensures { IsTrue result ↔ Contains ALIGNMENTS align }
{
    ALIGNMENTS.contains(&align)
}

/// How many objects have a local offset.
fn local_count(objects: &[Object]) -> usize
    ensures { result ≡ local_count (local_offsets objects.now) }
{
    let mut count = 0;
    for o in objects {
        count += counted(o.local_offset);
    }
    count
}

/// The size of the local block of these objects.
fn block_size(objects: &[Object]) -> u64
    ensures value { result ≡ block_size (local_offsets objects.now) }
    ensures small { result ≤ 4294967296 }
{
    let mut reach = 0;
    for o in objects {
        reach = reach_after(reach, o.local_offset);
    }
    up_to(16, u64::from(reach))
}

/// Whether each object is where it must be.
fn are_laid(objects: &[Object]) -> bool
    requires few { length objects.now ≤ MAX_SLOTS }
    requires each { All IsSoundObject objects.now }
    ensures { IsTrue result ↔ AreLaid objects.now }
{
    if local_count(objects) == 1 {
        return false;
    }
    if !are_placed(objects) {
        return false;
    }
    are_fixed(placed_area(objects), objects)
}

/// Whether each object that isn't fixed is where it must be.
fn are_placed(objects: &[Object]) -> bool
    requires few { length objects.now ≤ MAX_SLOTS }
    requires each { All IsSoundObject objects.now }
    ensures { IsTrue result ↔ ArePlaced objects.now }
{
    are_laid_from(block_size(objects), objects)
}

/// Whether each fixed object is at its offset from the end of an area of this size.
fn are_fixed(area: u64, objects: &[Object]) -> bool
    requires small { area ≤ 549755813888 }
    ensures { IsTrue result ↔ All (λ o. IsFixedAt area o.offset o.fixed_offset) objects.now }
{
    objects
        .iter()
        .all(|o| is_fixed_at(area, o.offset, o.fixed_offset))
}

/// Whether an object at an offset from the lowest byte of an area is at its offset from the area's end, if it is fixed.
fn is_fixed_at(area: u64, offset: u64, fixed: Option<i32>) -> bool
    requires small { area ≤ 549755813888 }
    ensures { IsTrue result ↔ IsFixedAt area offset fixed }
{
    match fixed {
        Some(distance) => is_at_distance(area, offset, distance),
        None => true,
    }
}

fn is_at_distance(area: u64, offset: u64, distance: i32) -> bool
    requires small { area ≤ 549755813888 }
    ensures { IsTrue result ↔ IsFixedAt area offset (Some distance) }
{
    let far = u64::from(distance.unsigned_abs());
    if distance < 0 {
        offset <= area && offset + far == area
    } else {
        offset == area + far
    }
}

/// Whether an object that isn't fixed begins where it must.
fn is_placed(block: u64, end: u64, o: &Object) -> bool
    requires positive { 0 < o.now.align }
    requires fits { end + o.now.align ≤ 2 ^ 64 }
    ensures { IsTrue result ↔ IsPlaced block end o.now o.now.fixed_offset }
{
    match o.fixed_offset {
        Some(_) => true,
        None => o.offset == place_of(block, end, o.align, o.local_offset),
    }
}

/// Whether each object that isn't fixed is where it must be by a local block of this size.
fn are_laid_from(block: u64, objects: &[Object]) -> bool
    requires few { length objects.now ≤ MAX_SLOTS }
    requires each { All IsSoundObject objects.now }
    requires small { block ≤ 4294967296 }
    ensures { IsTrue result ↔ AreLaidFrom block block objects.now }
{
    let mut end = block;
    let mut rest = objects;
    while let Some((o, tail)) = rest.split_first() {
        if !is_placed(block, end, o) {
            return false;
        }
        end = end_past(end, o);
        rest = tail;
    }
    true
}
