//! Range lists written by hand from DWARF 5 section 7.28.

ghost use Rattle.std.specs.Prelude.{IsTrue, All};
ghost use Rattle.dwarf_rnglists.specs.Ranges.{Ascend};

use base_list::List;
use dwarf_rnglists::range::{AddressRange, AddressRangeLists, AddressRanges};
use dwarf_rnglists::section::{ranges_size, write_ranges};
use std::alloc::{AllocError, Global};
use std::test::Fail;

/// The ends of the ranges of each list, and the section of the lists.
const SECTIONS: &[(&[&[(u64, u64)]], &[u8])] = &[
    (&[], &[8, 0, 0, 0, 5, 0, 8, 0, 0, 0, 0, 0]),
    (
        &[&[(4, 12)]],
        &[
            0x10, 0, 0, 0, 5, 0, 8, 0, 1, 0, 0, 0, 4, 0, 0, 0, 4, 4, 0x0c, 0,
        ],
    ),
    (
        &[&[(0, 4), (8, 12)]],
        &[
            0x13, 0, 0, 0, 5, 0, 8, 0, 1, 0, 0, 0, 4, 0, 0, 0, 4, 0, 4, 4, 8, 0x0c, 0,
        ],
    ),
    (
        &[&[(0x7c, 0x80)], &[], &[(4, 8)]],
        &[
            0x1e, 0, 0, 0, 5, 0, 8, 0, 3, 0, 0, 0, 0x0c, 0, 0, 0, 0x11, 0, 0, 0, 0x12, 0, 0, 0, 4,
            0x7c, 0x80, 1, 0, 0, 4, 4, 8, 0,
        ],
    ),
];

/// Whether the ranges of a list ascend without touching.
fn ascend(ranges: &[AddressRange]) -> bool
    ensures { IsTrue result → Ascend ranges.now }
{
    match ranges {
        [] => true,
        [only] => only.lo < only.hi,
        [first, next, ..] => first.lo < first.hi && first.hi < next.lo && ascend(&ranges[1..]),
    }
}

/// Whether those of each list do.
fn all_ascend(lists: &[AddressRanges]) -> bool
    ensures { IsTrue result → All Ascend lists.now }
{
    for list in lists {
        if !ascend(list.as_slice()) {
            return false;
        }
    }
    true
}

/// Ranges with these ends.
fn ranges_of(alloc: Global, ends: &[(u64, u64)]) -> Result<AddressRanges, AllocError> {
    let mut ranges = List::new(alloc);
    for (lo, hi) in ends {
        ranges.push(AddressRange { lo: *lo, hi: *hi })?;
    }
    Ok(ranges)
}

/// Lists of ranges with these ends.
fn lists_of(alloc: Global, ends: &[&[(u64, u64)]]) -> Result<AddressRangeLists, AllocError> {
    let mut lists = List::new(alloc);
    for list in ends {
        lists.push(ranges_of(alloc, list)?)?;
    }
    Ok(lists)
}

/// Whether the section of lists is this one, and its size is as told.
fn is_section(alloc: Global, lists: &AddressRangeLists, bytes: &[u8]) -> bool {
    if !all_ascend(lists.as_slice()) {
        return false;
    }
    let Some(size) = ranges_size(lists) else {
        return false;
    };
    match write_ranges(alloc, lists) {
        Ok(written) => written.as_slice() == bytes && bytes.len() == size as usize,
        Err(_) => false,
    }
}

/// The number of the first row whose lists have another section.
fn other_section(
    alloc: Global,
    rows: &[(&[&[(u64, u64)]], &[u8])],
) -> Result<Option<usize>, AllocError> {
    for (index, (ends, bytes)) in rows.iter().enumerate() {
        let lists = lists_of(alloc, ends)?;
        if !is_section(alloc, &lists, bytes) {
            return Ok(Some(index));
        }
    }
    Ok(None)
}

#[test]
fn lists_are_written(rt: HostRuntime) -> Result<(), Fail> {
    assert_eq!(rt; other_section(rt.alloc(), SECTIONS)?, None);
    Ok(())
}
