//! Fields as GNU ld and ld.lld fill them, with values at both ends of their ranges and where a lower half's sign
//! changes.

use elf_relocation::field::fill;
use elf_relocation::kind::{RelocationKind, kind_of};
use std::alloc::Global;
use std::test::Fail;

/// A relocation by its number, the bytes of its field before it, the addresses of its symbol and its field, its
/// addend, and the bytes after it: none if linkers refuse it.
struct Row {
    number: u32,
    before: &'static [u8],
    symbol: u64,
    place: u64,
    addend: u64,
    after: &'static [u8],
}

/// -8, as addends are.
const MINUS_8: u64 = 0xffff_ffff_ffff_fff8;

const LUI: &[u8] = &[0x37, 5, 0, 0];

const ADDI: &[u8] = &[0x13, 5, 5, 0];

const SW: &[u8] = &[0x23, 0x20, 0xb5, 0];

const LD: &[u8] = &[0x83, 0x34, 6, 0];

const CALL: &[u8] = &[0x97, 0, 0, 0, 0xe7, 0x80, 0, 0];

const TAIL: &[u8] = &[0x17, 3, 0, 0, 0x67, 0, 3, 0];

static ROWS: &[Row] = &[
    Row {
        number: 26,
        before: LUI,
        symbol: 0x1234_5678,
        place: 0x10000,
        addend: 4,
        after: &[0x37, 0x55, 0x34, 0x12],
    },
    Row {
        number: 27,
        before: ADDI,
        symbol: 0x1234_5678,
        place: 0x10004,
        addend: 4,
        after: &[0x13, 5, 0xc5, 0x67],
    },
    Row {
        number: 28,
        before: SW,
        symbol: 0x1234_5678,
        place: 0x10008,
        addend: 4,
        after: &[0x23, 0x2e, 0xb5, 0x66],
    },
    Row {
        number: 27,
        before: LD,
        symbol: 0x1234_5678,
        place: 0x1000c,
        addend: MINUS_8,
        after: &[0x83, 0x34, 6, 0x67],
    },
    Row {
        number: 19,
        before: CALL,
        symbol: 0x1234_5678,
        place: 0x10010,
        addend: 0,
        after: &[0x97, 0x50, 0x33, 0x12, 0xe7, 0x80, 0x80, 0x66],
    },
    Row {
        number: 19,
        before: TAIL,
        symbol: 0x1234_5678,
        place: 0x10018,
        addend: 0,
        after: &[0x17, 0x53, 0x33, 0x12, 0x67, 0, 3, 0x66],
    },
    Row {
        number: 2,
        before: &[0, 0, 0, 0, 0, 0, 0, 0],
        symbol: 0x1234_5678,
        place: 0,
        addend: 4,
        after: &[0x7c, 0x56, 0x34, 0x12, 0, 0, 0, 0],
    },
    Row {
        number: 1,
        before: &[0, 0, 0, 0],
        symbol: 0x1234_5678,
        place: 8,
        addend: MINUS_8,
        after: &[0x70, 0x56, 0x34, 0x12],
    },
    // the greatest lower half, and the least: one is carried
    Row {
        number: 26,
        before: LUI,
        symbol: 0x7fb,
        place: 0x10000,
        addend: 4,
        after: &[0x37, 5, 0, 0],
    },
    Row {
        number: 28,
        before: SW,
        symbol: 0x7fb,
        place: 0x10008,
        addend: 4,
        after: &[0xa3, 0x2f, 0xb5, 0x7e],
    },
    Row {
        number: 26,
        before: LUI,
        symbol: 0x7fc,
        place: 0x10000,
        addend: 4,
        after: &[0x37, 0x15, 0, 0],
    },
    Row {
        number: 28,
        before: SW,
        symbol: 0x7fc,
        place: 0x10008,
        addend: 4,
        after: &[0x23, 0x20, 0xb5, 0x80],
    },
    // the greatest address that an upper half reaches, and the next one
    Row {
        number: 26,
        before: LUI,
        symbol: 0x7fff_f7fb,
        place: 0x10000,
        addend: 4,
        after: &[0x37, 0xf5, 0xff, 0x7f],
    },
    Row {
        number: 26,
        before: LUI,
        symbol: 0x7fff_f7fc,
        place: 0x10000,
        addend: 4,
        after: &[],
    },
    // a call downwards, and one that is too far down
    Row {
        number: 19,
        before: CALL,
        symbol: 0x4000_0000,
        place: 0x7f00_0010,
        addend: 0,
        after: &[0x97, 0, 0, 0xc1, 0xe7, 0x80, 0, 0xff],
    },
    Row {
        number: 19,
        before: CALL,
        symbol: 0xffff_ffff_8000_0000,
        place: 0x10010,
        addend: 0,
        after: &[],
    },
];

/// Whether a row's field is filled as it says, or refused.
fn is_filled(alloc: Global, row: &Row) -> Result<bool, Fail> {
    let Some(kind) = kind_of(row.number) else {
        return Ok(false);
    };
    let mut field = row.before.to_vec(alloc)?;
    let value = kind.value(row.symbol, row.addend, row.place);
    if field.len() < kind.size() {
        return Ok(false);
    }
    if !kind.is_in_range(value) {
        return Ok(row.after.is_empty());
    }
    fill(field.as_mut_slice(), 0, kind, value);
    Ok(field.as_slice() == row.after)
}

#[test]
fn fields_are_as_linkers_fill_them(rt: HostRuntime) -> Result<(), Fail> {
    for row in ROWS {
        assert!(rt; is_filled(rt.alloc(), row)?);
    }
    Ok(())
}

#[test]
fn each_kind_has_its_number(rt: HostRuntime) -> Result<(), Fail> {
    let numbers: [u32; 6] = [1, 2, 19, 26, 27, 28];
    for number in numbers {
        assert!(rt; kind_of(number).map(RelocationKind::number) == Some(number));
    }
    assert!(rt; kind_of(51).is_none());
    Ok(())
}
