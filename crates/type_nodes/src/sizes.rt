//! The sizes of types.

ghost use Rattle.std.specs.Prelude.{◌≡◌, ◌<◌, length, replicate, None, IfOk};
ghost use Rattle.std.specs.Option.{option_and_then};
ghost use Rattle.type_nodes.specs.Sizes.{AreSizes, array_size, size_at, size_by};

use crate::shape::Shape;
use crate::steps::chains;
use graph_cycles::ends::ends;
use std::alloc::{AllocError, Global};

/// No array has so many bytes.
const LIMIT: u64 = 1 << 61;

/// The size of each type in bytes, and none where it isn't known. The time is linear in the types and in what they
/// name. The error is out of memory.
pub fn sizes(alloc: Global, types: &[Shape]) -> Result<Vec<Option<u64>>, AllocError>
    requires { length types.now < 4294967296 }
    ensures { IfOk result (λ sizes. AreSizes types.now sizes.items) }
{
    let chains = chains(alloc, types)?;
    let made = ends(alloc, chains.as_slice())?;
    let mut sizes = no_sizes(alloc, types.len())?;
    let order = made.order.as_slice();
    for index in order {
        let size = size_by(&types[*index as usize], sizes.as_slice());
        sizes[*index as usize] = size;
    }
    Ok(sizes)
}

/// No size, for so many types.
fn no_sizes(alloc: Global, count: usize) -> Result<Vec<Option<u64>>, AllocError>
    ensures { IfOk result (λ sizes. sizes.items ≡ replicate count None) }
{
    let mut sizes = Vec::new(alloc);
    sizes.resize(count, None)?;
    Ok(sizes)
}

/// The size of a type, by the sizes of others.
fn size_by(shape: &Shape, sizes: &[Option<u64>]) -> Option<u64>
    ensures { result ≡ size_by (size_at sizes.now) shape.now }
{
    match shape {
        Shape::Base(_, bytes, _) => Some(u64::from(*bytes)),
        Shape::Pointer(_, _) => Some(8),
        Shape::Qualifier(_, to) => size_of(sizes, *to),
        Shape::Typedef(_, to) => size_of(sizes, *to),
        Shape::Declaration(_, _) => None,
        Shape::Record(_, _, bytes, _) => Some(*bytes),
        Shape::Enumeration(_, bytes, _, _) => Some(*bytes),
        Shape::Array(to, counts) => all_size(size_at(sizes, *to), counts.as_slice()),
        Shape::Subroutine(_, _, _) => None,
    }
}

/// The size of a type, and none of void.
fn size_of(sizes: &[Option<u64>], index: Option<u32>) -> Option<u64>
    ensures { result ≡ option_and_then (size_at sizes.now) index }
{
    match index {
        None => None,
        Some(index) => size_at(sizes, index),
    }
}

/// The size at an index.
fn size_at(sizes: &[Option<u64>], index: u32) -> Option<u64>
    ensures { result ≡ size_at sizes.now index }
{
    let index = index as usize;
    if index < sizes.len() {
        sizes[index]
    } else {
        None
    }
}

/// The size of an array, if that of its elements is known.
fn all_size(size: Option<u64>, counts: &[Option<u64>]) -> Option<u64>
    ensures { result ≡ option_and_then (array_size counts.now) size }
{
    match size {
        None => None,
        Some(size) => array_size(size, counts),
    }
}

/// The size of an array.
fn array_size(size: u64, counts: &[Option<u64>]) -> Option<u64>
    ensures { result ≡ array_size counts.now size }
{
    let mut total = size.min(LIMIT);
    for count in counts {
        match count {
            None => return None,
            Some(count) => total = total.saturating_mul(*count).min(LIMIT),
        }
    }
    if total < LIMIT { Some(total) } else { None }
}
