//! The section of constants as GNU as makes it of `.balign` and of a value of each size.

use constant_section::laws::constants_stand;
use constant_section::section::{SectionBytes, greatest_alignment, push_constants};
use mir_pool::constant::{IntegerType, PoolConstant};
use std::test::Fail;

/// The constants of two functions.
static POOLS: &[&[PoolConstant]] = &[
    &[
        PoolConstant {
            id: 0,
            integer: IntegerType::Bits8,
            value: 0xff,
            alignment: 1,
        },
        PoolConstant {
            id: 1,
            integer: IntegerType::Bits64,
            value: 0x1234_5678_9abc_def0,
            alignment: 8,
        },
        PoolConstant {
            id: 2,
            integer: IntegerType::Bits16,
            value: 0x8001,
            alignment: 2,
        },
    ],
    &[
        PoolConstant {
            id: 0,
            integer: IntegerType::Bits32,
            value: 7,
            alignment: 4,
        },
        PoolConstant {
            id: 1,
            integer: IntegerType::Bits128,
            value: 0xffff_ffff_ffff_ffff_ffff_ffff_ffff_fffe,
            alignment: 16,
        },
    ],
];

/// Where they stand.
static PLACES: &[&[usize]] = &[&[0, 8, 16], &[20, 32]];

static SECTION: &[u8] = &[
    0xff, 0, 0, 0, 0, 0, 0, 0, 0xf0, 0xde, 0xbc, 0x9a, 0x78, 0x56, 0x34, 0x12, 1, 0x80, 0, 0, 7, 0,
    0, 0, 0, 0, 0, 0, 0, 0, 0, 0, 0xfe, 0xff, 0xff, 0xff, 0xff, 0xff, 0xff, 0xff, 0xff, 0xff, 0xff,
    0xff, 0xff, 0xff, 0xff, 0xff,
];

#[test]
fn constants_stand_in_their_section(rt: HostRuntime) -> Result<(), Fail> {
    constants_stand();
    let mut bytes = SectionBytes::new(rt.alloc());
    let mut alignment = 1;
    for (pool, wanted) in POOLS.iter().zip(PLACES) {
        let places = push_constants(rt.alloc(), &mut bytes, pool)?;
        assert_eq!(rt; places.as_slice(), *wanted);
        alignment = greatest_alignment(alignment, pool);
    }
    assert_eq!(rt; bytes.as_slice(), SECTION);
    assert_eq!(rt; alignment, 16);
    Ok(())
}
