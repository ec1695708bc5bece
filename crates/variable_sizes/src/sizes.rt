//! The size of each variable by the number of its location list.

ghost use Rattle.std.specs.Prelude.{◌≡◌, ◌<◌, IfOk, length};
ghost use Rattle.type_nodes.specs.Sizes.{size_at};
ghost use Rattle.variable_sizes.specs.Sizes;
ghost use Rattle.variable_sizes.specs.Sizes.{AreListSizes};

use base_list::List;
use std::alloc::{AllocError, Global};
use type_entries::all_types::table_of;
use type_entries::table::{TypeTable, is_known};
use type_nodes::shape::Shape;
use typed_unit::content::{Inner, TypedUnit};

/// The size of a variable whose type isn't known.
pub const UNKNOWN_SIZE: u64 = 8;
/// A limit on sizes, exclusive.
const SIZE_LIMIT: u64 = 1 << 61;

/// The sizes in bytes of the variables of a unit with these types, by the numbers of their location lists, of which
/// there are so many. The error is out of memory.
pub fn list_sizes(
    alloc: Global,
    types: List<Shape>,
    unit: &TypedUnit,
    count: usize,
) -> Result<Vec<u64>, AllocError>
    requires { length types < 4294967296 }
    ensures { IfOk result (λ sizes. AreListSizes types count unit.now sizes.items) }
{
    let table = table_of(alloc, types)?;
    let sizes = sizes_by(alloc, &table, unit, count)?;
    Ok(sizes)
}

/// The same by a table of the types.
fn sizes_by(
    alloc: Global,
    t: &TypeTable,
    unit: &TypedUnit,
    count: usize,
) -> Result<Vec<u64>, AllocError>
    ensures { IfOk result (λ sizes. sizes.items ≡ Sizes.list_sizes t.now count unit.now) }
{
    let mut sizes = vec![in alloc; UNKNOWN_SIZE; count]?;
    for function in unit.functions.as_slice() {
        set_inside(&mut sizes, t, function.inside.as_slice());
    }
    Ok(sizes)
}

/// Sets the sizes of the variables inside a function.
fn set_inside(sizes: &mut [u64], t: &TypeTable, inside: &[Inner])
    ensures { sizes.new ≡ Sizes.with_inside t.now sizes.old inside.now }
{
    for inner in inside {
        set_inner(sizes, t, inner);
    }
}

/// Sets the size of a variable.
fn set_inner(sizes: &mut [u64], t: &TypeTable, inner: &Inner)
    ensures { sizes.new ≡ Sizes.with_inner t.now sizes.old inner.now }
{
    match inner {
        Inner::Variable(variable) => {
            set_size(sizes, variable.list, variable_size(t, variable.base))
        }
        Inner::Block(_) | Inner::Inlined(_) | Inner::End => {}
    }
}

/// Sets the size of the variable that has a list, if it has one.
fn set_size(sizes: &mut [u64], list: Option<u64>, size: u64)
    ensures { sizes.new ≡ Sizes.with_size sizes.old list size }
{
    if let Some(list) = list {
        let list = list as usize;
        if list < sizes.len() {
            sizes[list] = size;
        }
    }
}

/// The size of a variable in bytes by its type.
fn variable_size(t: &TypeTable, base: Option<u32>) -> u64
    ensures { result ≡ Sizes.variable_size t.now base }
{
    match base {
        None => UNKNOWN_SIZE,
        Some(index) => {
            if is_known(t, base) {
                size_within(type_size(t, index))
            } else {
                UNKNOWN_SIZE
            }
        }
    }
}

/// The size of a type.
fn type_size(t: &TypeTable, index: u32) -> Option<u64>
    ensures { result ≡ size_at t.now.sizes.items index }
{
    let index = index as usize;
    if index < t.sizes.len() {
        t.sizes[index]
    } else {
        None
    }
}

/// A size, if it is known and within the limit.
fn size_within(size: Option<u64>) -> u64
    ensures { result ≡ Sizes.size_within size }
{
    match size {
        None => UNKNOWN_SIZE,
        Some(size) => {
            if size < SIZE_LIMIT {
                size
            } else {
                UNKNOWN_SIZE
            }
        }
    }
}
