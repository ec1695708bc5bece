//! The fixed objects of a function.

ghost use Rattle.std.specs.Prelude.{◌≡◌, ◌+◌, ◌++◌, ◌^◌, ◌≤◌, All, Some, OnOk, length, map};
ghost use Rattle.mir_func.specs.Limits.{MAX_SLOTS};
ghost use Rattle.mir_func.specs.Objects.{up_to, depth_of, AreLaid};
ghost use Rattle.mir_func.specs.Sound.{IsSoundObject};
ghost use Rattle.read_body.specs.FixedObjects.{from_end, fixed_object, fixed_depth, area_with, with_fixed};

use mir_func::object::{Object, Objects, area, depth_of, up_to};
use read_declarations::fixed::FixedEntry;
use std::alloc::AllocError;

/// The place of what begins so far above or below the end of an area, from the area's lowest byte.
fn from_end(area: u64, offset: i32) -> u64
    requires { area ≤ 2 ^ 40 }
    ensures { result ≡ from_end area offset }
{
    let far = u64::from(offset.unsigned_abs());
    if offset < 0 {
        area.saturating_sub(far)
    } else {
        area + far
    }
}

/// The object of an entry, where the area of all objects has this size.
fn fixed_object(area: u64, entry: &FixedEntry) -> Object
    requires { area ≤ 2 ^ 40 }
    ensures { result ≡ fixed_object area entry.now }
{
    Object {
        id: entry.id,
        size: entry.size,
        align: 1,
        local_offset: None,
        fixed_offset: Some(entry.offset),
        offset: from_end(area, entry.offset),
    }
}

/// How far below the stack pointer at entry the object of an entry begins, or 0.
fn entry_depth(entry: &FixedEntry) -> u32
    ensures value { result ≡ depth_of (Some entry.now.offset) }
    ensures small { result ≤ 2147483648 }
{
    depth_of(Some(entry.offset))
}

/// The bytes from the deepest of these entries up to the stack pointer at entry.
fn fixed_room(entries: &[FixedEntry]) -> u64
    ensures value { result ≡ up_to 16 (fixed_depth 0 entries.now) }
    ensures small { result ≤ 2147483648 }
{
    let mut depth = 0;
    for entry in entries {
        depth = depth.max(entry_depth(entry));
    }
    up_to(16, u64::from(depth))
}

/// Appends the objects of fixed entries, where the area of all objects has this size.
fn push_all(objects: &mut Objects, area: u64, entries: &[FixedEntry]) -> Result<(), AllocError>
    requires { area ≤ 2 ^ 40 }
    ensures { OnOk result (objects.new ≡ objects.old ++ map (fixed_object area) entries.now) }
{
    for entry in entries {
        objects.push(fixed_object(area, entry))?;
    }
    Ok(())
}

/// Appends the objects of fixed entries to objects of which none is fixed.
pub fn push_fixed(objects: &mut Objects, entries: &[FixedEntry]) -> Result<(), AllocError>
    requires few { length objects.old ≤ MAX_SLOTS }
    requires each { All IsSoundObject objects.old }
    requires laid { AreLaid objects.old }
    ensures { OnOk result (objects.new ≡ with_fixed objects.old entries.now) }
{
    let size = area(objects.as_slice()) + fixed_room(entries);
    push_all(objects, size, entries)
}
