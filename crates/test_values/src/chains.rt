//! The parts of one variable in a list of parts: these alone are looked at for a debug value.

use crate::text::part;
use std::alloc::Global;
use std::test::Fail;
use value_tracker::part_list::PartList;

/// A variable; and the ends of its parts, from the last one up.
type Row = (u32, [usize; 4]);

/// The ends in a list of parts of variables 4, 5, 4, 5 and 4.
const ROWS: &[Row] = &[(4, [5, 3, 1, 0]), (5, [4, 2, 0, 0]), (6, [0, 0, 0, 0])];

fn parts(alloc: Global) -> Result<PartList, Fail> {
    let list = vec![in alloc;
        part(4, 0, 4),
        part(5, 0, 4),
        part(4, 4, 4),
        part(5, 4, 4),
        part(4, 2, 4),
    ]?;
    Ok(PartList::new(alloc, list)?)
}

/// The end before the part that ends there, or 0.
fn before(parts: &PartList, end: usize) -> usize {
    if end == 0 {
        0
    } else {
        parts.end_before(end - 1)
    }
}

fn ends(parts: &PartList, node: u32) -> [usize; 4] {
    let last = parts.end(&part(node, 0, 1));
    let second = before(parts, last);
    let third = before(parts, second);
    [last, second, third, before(parts, third)]
}

/// The number of the first row whose ends are others.
fn other_ends(parts: &PartList, rows: &[Row]) -> Option<usize> {
    for (row, (node, wanted)) in rows.iter().enumerate() {
        let found = ends(parts, *node);
        if found.as_slice() != wanted.as_slice() {
            return Some(row);
        }
    }
    None
}

#[test]
fn parts_are_chained(rt: HostRuntime) -> Result<(), Fail> {
    let parts = parts(rt.alloc())?;
    assert_eq!(rt; other_ends(&parts, ROWS), None);
    Ok(())
}
