//! Types as rows.

use base_list::List;
use std::alloc::{AllocError, Global};
use type_nodes::shape::{Counts, Enumerators, Indices, Member, Members, Name, Shape};

/// A kind of types.
pub(crate) enum Kind {
    Base,
    Pointer,
    Qualifier,
    Typedef,
    Declaration,
    Record,
    Enumeration,
    Array,
    Subroutine,
}

/// A type: its kind, the types that it names, by their rows, and whether it stands.
pub(crate) type Row = (Kind, &'static [u32], bool);

/// The type of a row.
pub(crate) fn shape_of(alloc: Global, row: &Row) -> Result<Shape, AllocError> {
    let (kind, names, _) = row;
    let to = names.first().copied();
    let name = Name::new(alloc);
    Ok(match kind {
        Kind::Base => Shape::Base(name, 8, 5),
        Kind::Pointer => Shape::Pointer(0x0f, to),
        Kind::Qualifier => Shape::Qualifier(0x26, to),
        Kind::Typedef => Shape::Typedef(name, to),
        Kind::Declaration => Shape::Declaration(0x13, name),
        Kind::Record => Shape::Record(0x13, name, 8, members_of(alloc, names)?),
        Kind::Enumeration => Shape::Enumeration(name, 4, to, Enumerators::new(alloc)),
        Kind::Array => Shape::Array(to.unwrap_or(u32::MAX), Counts::new(alloc)),
        Kind::Subroutine => Shape::Subroutine(to, parameters_of(alloc, names)?, false),
    })
}

/// Members of these types.
fn members_of(alloc: Global, names: &[u32]) -> Result<Members, AllocError> {
    let mut members = Members::new(alloc);
    for base in names {
        members.push(Member {
            name: Name::new(alloc),
            base: *base,
            offset: 0,
            size: 64,
            bit_field: false,
        })?;
    }
    Ok(members)
}

/// Parameters of these types but for the first one, which is that of the result.
fn parameters_of(alloc: Global, names: &[u32]) -> Result<Indices, AllocError> {
    match names {
        [] => Ok(Indices::new(alloc)),
        [_, parameters @ ..] => List::from_slice(alloc, parameters),
    }
}
