//! Types of every kind.

use base_list::List;
use std::alloc::{AllocError, Global};
use type_nodes::shape::{Counts, Enumerator, Enumerators, Member, Members, Name, Shape};

/// A name.
fn name(alloc: Global, bytes: &[u8]) -> Result<Name, AllocError> {
    List::from_slice(alloc, bytes)
}

/// Members: their names, types, offsets and sizes in bits, and whether they are bit fields. Some end behind the record,
/// don't begin at a byte, or have no type.
static MEMBERS: &[(&[u8], u32, u64, u64, bool)] = &[
    (b"v", 0, 0, 64, false),
    (b"p", 2, 64, 64, false),
    (b"b", 0, 3, 5, true),
    (b"", 7, 0, 0, false),
    (b"q", 10, 0, 64, false),
    (b"r", 0, 4, 64, false),
    (b"s", 0, 96, 64, false),
    (b"d", 5, 0, 8, false),
];

fn members(alloc: Global) -> Result<Members, AllocError> {
    let mut members = Members::new(alloc);
    for (bytes, base, offset, size, bit_field) in MEMBERS {
        members.push(Member {
            name: name(alloc, bytes)?,
            base: *base,
            offset: *offset,
            size: *size,
            bit_field: *bit_field,
        })?;
    }
    Ok(members)
}

fn enumerators(alloc: Global) -> Result<Enumerators, AllocError> {
    let mut enumerators = Enumerators::new(alloc);
    enumerators.push(Enumerator {
        name: name(alloc, b"low")?,
        value: 0,
        negative: Some(-1),
    })?;
    enumerators.push(Enumerator {
        name: name(alloc, b"high")?,
        value: 7,
        negative: None,
    })?;
    Ok(enumerators)
}

fn counts(alloc: Global) -> Result<Counts, AllocError> {
    let mut counts = Counts::new(alloc);
    counts.push(Some(3))?;
    counts.push(None)?;
    Ok(counts)
}

/// A base type, a structure and a pointer to it, a typedef, a qualifier of void, a declaration, an enumeration, an
/// array, a function, a typedef of itself, an array of that, and a pointer to that.
pub(crate) fn shapes(alloc: Global) -> Result<List<Shape>, AllocError> {
    let mut types = List::new(alloc);
    types.push(Shape::Base(name(alloc, b"long")?, 8, 5))?;
    types.push(Shape::Record(0x13, name(alloc, b"n")?, 16, members(alloc)?))?;
    types.push(Shape::Pointer(0x0f, Some(1)))?;
    types.push(Shape::Typedef(name(alloc, b"t")?, Some(2)))?;
    types.push(Shape::Qualifier(0x26, None))?;
    types.push(Shape::Declaration(0x13, name(alloc, b"h")?))?;
    let enumerators = enumerators(alloc)?;
    types.push(Shape::Enumeration(name(alloc, b"e")?, 4, Some(0), enumerators))?;
    types.push(Shape::Array(0, counts(alloc)?))?;
    let parameters = List::from_slice(alloc, &[0, 5, 3])?;
    types.push(Shape::Subroutine(Some(2), parameters, true))?;
    types.push(Shape::Typedef(name(alloc, b"c")?, Some(9)))?;
    let mut two = Counts::new(alloc);
    two.push(Some(2))?;
    types.push(Shape::Array(9, two))?;
    types.push(Shape::Pointer(0x0f, Some(10)))?;
    Ok(types)
}
