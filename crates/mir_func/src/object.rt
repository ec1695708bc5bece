//! Stack objects.

ghost use Rattle.std.specs.Prelude.{◌≡◌, ◌+◌, ◌^◌, ◌<◌, ◌≤◌, All, Some, None, length};
ghost use Rattle.mir_func.specs.Limits.{MAX_SLOTS};
ghost use Rattle.mir_func.specs.Objects.{
  up_to,
  reach_after,
  counted,
  depth_of,
  place_of,
  next_end,
  end_past,
  own_end,
  end_from,
  fixed_area,
  ArePlaced,
  AreLaid,
  area_of,
  extent_of,
};
ghost use Rattle.mir_func.specs.Sound.{IsSoundObject};

use rv64_instr::base_ids_crate::function_ids::ObjectId;
use rv64_instr::base_list_crate::List;

/// A stack object: bytes of the frame whose address code may take (LLVM: a frame index that is no spill slot).
#[derive(Clone, Copy, Debug, PartialEq, Eq)]
pub struct Object {
    /// Its number.
    pub id: ObjectId,
    /// Its size in bytes.
    pub size: u32,
    /// Its alignment in bytes: 1, 2, 4, 8 or 16.
    pub align: u32,
    /// How far it begins below the end of the local block, in bytes, if it is in that (LLVM: `LocalOffset`, negated).
    pub local_offset: Option<u32>,
    /// Its offset from the stack pointer at entry, in bytes, if it is a fixed object, as an argument that the caller
    /// passes on the stack (LLVM: an object of `fixedStack`).
    pub fixed_offset: Option<i32>,
    /// Its offset from the lowest byte of the objects' area, in bytes.
    pub offset: u64,
}

/// The stack objects of a function, in declared order.
pub type Objects = List<Object>;

/// The least multiple of an alignment that isn't below a number.
pub fn up_to(align: u64, n: u64) -> u64
    requires positive { 0 < align }
    requires fits { n + align ≤ 2 ^ 64 }
    ensures { result ≡ up_to align n }
{
    (n + (align - 1)) / align * align
}

/// The greater of a number and a local offset, if there is one.
pub fn reach_after(n: u32, local: Option<u32>) -> u32
    ensures { result ≡ reach_after n local }
{
    match local {
        Some(offset) => n.max(offset),
        None => n,
    }
}

/// One for a local offset.
pub fn counted(local: Option<u32>) -> usize
    ensures value { result ≡ counted local }
    ensures one { result ≤ 1 }
{
    match local {
        Some(_) => 1,
        None => 0,
    }
}

/// How far below the stack pointer at entry an object at this offset from it begins, or 0.
pub fn depth_of(fixed: Option<i32>) -> u32
    ensures value { result ≡ depth_of fixed }
    ensures small { result ≤ 2147483648 }
{
    match fixed {
        Some(offset) => depth(offset),
        None => 0,
    }
}

fn depth(offset: i32) -> u32
    ensures value { result ≡ depth_of (Some offset) }
    ensures small { result ≤ 2147483648 }
{
    if offset < 0 { offset.unsigned_abs() } else { 0 }
}

/// Where an object that isn't fixed begins: by its local offset in a local block of this size; without one, at the least
/// multiple of its alignment that isn't below `end`.
#[tactic(auto, using(crate::proofs::Laid::padding))]
pub fn place_of(block: u64, end: u64, align: u32, local: Option<u32>) -> u64
    requires positive { 0 < align }
    requires fits { end + align ≤ 2 ^ 64 }
    ensures value { result ≡ place_of block end align local }
    ensures low { result ≤ block + end + align }
{
    match local {
        Some(offset) => block.saturating_sub(u64::from(offset)),
        None => up_to(u64::from(align), end),
    }
}

/// The end of the objects above the local block, after an object that ends at `past`.
pub fn next_end(end: u64, past: u64, local: Option<u32>) -> u64
    ensures { result ≡ next_end end past local }
{
    match local {
        Some(_) => end,
        None => past,
    }
}

/// The end of the objects above the local block, after this object; a fixed one isn't among them.
pub fn end_past(end: u64, o: &Object) -> u64
    requires fits { o.now.fixed_offset ≡ None → o.now.offset + o.now.size < 2 ^ 64 }
    ensures { result ≡ end_past end o.now o.now.fixed_offset }
{
    match o.fixed_offset {
        Some(_) => end,
        None => next_end(end, o.offset + u64::from(o.size), o.local_offset),
    }
}

/// The end of an object that isn't fixed, if that is greater than `end`.
fn own_end(end: u64, o: &Object) -> u64
    requires fits { o.now.fixed_offset ≡ None → o.now.offset + o.now.size < 2 ^ 64 }
    ensures { result ≡ own_end end o.now o.now.fixed_offset }
{
    match o.fixed_offset {
        Some(_) => end,
        None => end.max(o.offset + u64::from(o.size)),
    }
}

/// The greatest end of the objects that aren't fixed.
fn greatest_end(objects: &[Object]) -> u64
    requires few { length objects.now ≤ MAX_SLOTS }
    requires each { All IsSoundObject objects.now }
    requires laid { ArePlaced objects.now }
    ensures value { result ≡ end_from 0 objects.now }
    ensures small { result ≤ 483183820800 }
{
    let mut end = 0;
    for o in objects {
        end = own_end(end, o);
    }
    end
}

/// The bytes from the deepest fixed object up to the stack pointer at entry.
fn fixed_area(objects: &[Object]) -> u64
    ensures value { result ≡ fixed_area objects.now }
    ensures small { result ≤ 2147483648 }
{
    let mut depth = 0;
    for o in objects {
        depth = depth.max(depth_of(o.fixed_offset));
    }
    up_to(16, u64::from(depth))
}

/// How many bytes these objects take together below the stack pointer at entry: a multiple of 16.
pub fn area(objects: &[Object]) -> u64
    requires few { length objects.now ≤ MAX_SLOTS }
    requires each { All IsSoundObject objects.now }
    requires laid { AreLaid objects.now }
    ensures value { result ≡ area_of objects.now }
    ensures small { result ≤ 549755813888 }
{
    placed_area(objects)
}

/// The area where each object that isn't fixed is where it must be.
pub fn placed_area(objects: &[Object]) -> u64
    requires few { length objects.now ≤ MAX_SLOTS }
    requires each { All IsSoundObject objects.now }
    requires laid { ArePlaced objects.now }
    ensures value { result ≡ area_of objects.now }
    ensures small { result ≤ 549755813888 }
{
    up_to(16, greatest_end(objects)) + fixed_area(objects)
}

/// The bytes from the lowest byte of these objects up to the end of their area, or of a fixed object that ends above
/// it.
pub fn extent(objects: &[Object]) -> u64
    requires few { length objects.now ≤ MAX_SLOTS }
    requires each { All IsSoundObject objects.now }
    requires laid { AreLaid objects.now }
    ensures value { result ≡ extent_of objects.now }
    ensures above { area_of objects.now ≤ result }
    ensures small { result ≤ 549755813888 }
{
    let mut end = area(objects);
    for o in objects {
        end = end.max(o.offset + u64::from(o.size));
    }
    end
}
