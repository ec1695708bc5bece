//! The size of a frame.

ghost use Rattle.std.specs.Prelude.{◌≡◌, ◌≤◌, ◌+◌, ◌*◌, length, All};
ghost use Rattle.mir_func.specs.Limits.{MAX_SLOTS};
ghost use Rattle.mir_func.specs.Objects.{up_to, AreLaid, area_of, extent_of};
ghost use Rattle.mir_func.specs.Sound.{IsSoundObject};

use mir_func::object::{Object, area, extent, up_to};

/// The greatest size of a frame, in bytes: the greatest multiple of 16 by which one `ADDI` can lower x2.
pub const MAX_FRAME: u64 = 2_032;

/// The alignment of a frame's size, in bytes (RISC-V ELF psABI, "Integer Calling Convention").
const ALIGNMENT: u64 = 16;

/// The bytes of this many slots and saved registers, rounded up to a multiple of 16.
pub fn own_size(count: usize) -> u64
    requires { count ≤ 1024 }
    ensures value { result ≡ up_to 16 (8 * count) }
    ensures small { result ≤ 8192 }
{
    up_to(ALIGNMENT, 8 * count as u64)
}

/// The bytes from x2 up to the end of a frame with this many slots and saved registers, and these stack objects, or up
/// to the end of a fixed object that ends above it.
pub fn reach(count: usize, objects: &[Object]) -> u64
    requires count { count ≤ 1024 }
    requires few { length objects.now ≤ MAX_SLOTS }
    requires each { All IsSoundObject objects.now }
    requires laid { AreLaid objects.now }
    ensures value { result ≡ up_to 16 (8 * count) + extent_of objects.now }
    ensures frame { up_to 16 (8 * count) + area_of objects.now ≤ result }
{
    up_to(ALIGNMENT, 8 * count as u64) + extent(objects)
}

/// The size in bytes of a frame with this many slots and saved registers, and these stack objects.
pub fn size(count: usize, objects: &[Object]) -> u64
    requires count { count ≤ 1024 }
    requires few { length objects.now ≤ MAX_SLOTS }
    requires each { All IsSoundObject objects.now }
    requires laid { AreLaid objects.now }
    ensures { result ≡ up_to 16 (8 * count) + area_of objects.now }
{
    up_to(ALIGNMENT, 8 * count as u64) + area(objects)
}
