//! Which types stand.

use crate::rows::{Kind, Row, shape_of};
use std::alloc::{AllocError, Global};
use std::test::Fail;
use type_nodes::laws::no_walk_comes_round;
use type_nodes::standing::standing;

/// Types that name one another.
static ROWS: &[&[Row]] = &[
    // structures that point to themselves, that contain themselves, and what is made of them
    &[(Kind::Record, &[1], true), (Kind::Pointer, &[0], true)],
    &[
        (Kind::Record, &[0], false),
        (Kind::Array, &[0], false),
        (Kind::Typedef, &[0], false),
        (Kind::Pointer, &[0], true),
        (Kind::Pointer, &[2], true),
    ],
    // circles of names
    &[(Kind::Pointer, &[0], false)],
    &[
        (Kind::Subroutine, &[2, 1], false),
        (Kind::Pointer, &[0], false),
        (Kind::Base, &[], true),
        (Kind::Record, &[1], true),
    ],
    &[
        (Kind::Typedef, &[1], false),
        (Kind::Qualifier, &[0], false),
        (Kind::Record, &[0, 3], true),
        (Kind::Base, &[], true),
    ],
    // what is made of no type, and of void
    &[
        (Kind::Typedef, &[1], false),
        (Kind::Typedef, &[9], false),
        (Kind::Array, &[], false),
        (Kind::Pointer, &[9], true),
        (Kind::Qualifier, &[], true),
        (Kind::Typedef, &[4], true),
    ],
    // kinds that name nothing, or nothing that is followed
    &[
        (Kind::Declaration, &[], true),
        (Kind::Enumeration, &[1], true),
        (Kind::Array, &[0], true),
        (Kind::Subroutine, &[], true),
    ],
    &[],
];

/// Whether the types of rows stand as the rows say.
fn stand_as_told(alloc: Global, rows: &[Row]) -> Result<bool, AllocError> {
    let mut types = Vec::new(alloc);
    for row in rows {
        types.push(shape_of(alloc, row)?)?;
    }
    if types.len() > 100 {
        return Ok(false);
    }
    let marks = standing(alloc, types.as_slice())?;
    for (row, mark) in rows.iter().zip(marks.as_slice()) {
        if row.2 != *mark {
            return Ok(false);
        }
    }
    Ok(marks.len() == rows.len())
}

#[test]
fn types_stand(rt: HostRuntime) -> Result<(), Fail> {
    no_walk_comes_round();
    for rows in ROWS {
        assert!(rt; stand_as_told(rt.alloc(), rows)?);
    }
    Ok(())
}
