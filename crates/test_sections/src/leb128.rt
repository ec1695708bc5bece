//! LEB128 numbers, by the examples of DWARF 5 section 7.6, and at the extremes.

use dwarf_base::front::{split_sleb, split_u32, split_uleb};
use dwarf_base::leb::{Leb, sleb, uleb};

/// Numbers, and their bytes with others behind them.
const UNSIGNED: &[(u64, &[u8], usize)] = &[
    (2, &[2, 9, 9], 2),
    (127, &[127, 9, 9], 2),
    (128, &[0x80, 1, 9], 1),
    (129, &[0x81, 1, 9], 1),
    (12857, &[0xb9, 0x64, 9], 1),
    (
        u64::MAX,
        &[0xff, 0xff, 0xff, 0xff, 0xff, 0xff, 0xff, 0xff, 0xff, 1],
        0,
    ),
];

/// The same with a sign.
const SIGNED: &[(i64, &[u8], usize)] = &[
    (2, &[2, 9, 9], 2),
    (-2, &[0x7e, 9, 9], 2),
    (127, &[0xff, 0, 9], 1),
    (-127, &[0x81, 0x7f, 9], 1),
    (128, &[0x80, 1, 9], 1),
    (-128, &[0x80, 0x7f, 9], 1),
    (129, &[0x81, 1, 9], 1),
    (-129, &[0xff, 0x7e, 9], 1),
    (
        i64::MAX,
        &[0xff, 0xff, 0xff, 0xff, 0xff, 0xff, 0xff, 0xff, 0xff, 0],
        0,
    ),
    (
        i64::MIN,
        &[0x80, 0x80, 0x80, 0x80, 0x80, 0x80, 0x80, 0x80, 0x80, 0x7f],
        0,
    ),
];

/// Not the shortest, cut off, of more than 64 bits.
const NOT_UNSIGNED: &[&[u8]] = &[
    &[0x80, 0],
    &[0x80],
    &[0xff, 0xff, 0xff, 0xff, 0xff, 0xff, 0xff, 0xff, 0xff, 2],
];

/// Not the shortest, and of more than 64 bits.
const NOT_SIGNED: &[&[u8]] = &[
    &[0xff, 0x7f],
    &[0x80, 0x80, 0x80, 0x80, 0x80, 0x80, 0x80, 0x80, 0x80, 1],
];

/// Whether bytes begin with those of a number, and with them so many.
fn is_front(bytes: &[u8], number: &Leb, after: usize) -> bool {
    bytes.starts_with(number.as_slice()) && bytes.len().saturating_sub(number.len()) == after
}

/// Whether bytes begin with a number without a sign, written and read.
fn is_unsigned(bytes: &[u8], number: u64, after: usize) -> bool {
    match split_uleb(bytes) {
        Some((n, rest)) => n == number
            && rest.len() == after
            && is_front(bytes, &uleb(number), after),
        None => false,
    }
}

/// The same with a sign.
fn is_signed(bytes: &[u8], number: i64, after: usize) -> bool {
    match split_sleb(bytes) {
        Some((n, rest)) => n == number
            && rest.len() == after
            && is_front(bytes, &sleb(number), after),
        None => false,
    }
}

/// The first number without a sign that isn't written and read so.
fn other_unsigned(rows: &[(u64, &[u8], usize)]) -> Option<u64> {
    for (number, bytes, after) in rows {
        if !is_unsigned(bytes, *number, *after) {
            return Some(*number);
        }
    }
    None
}

/// The same with a sign.
fn other_signed(rows: &[(i64, &[u8], usize)]) -> Option<i64> {
    for (number, bytes, after) in rows {
        if !is_signed(bytes, *number, *after) {
            return Some(*number);
        }
    }
    None
}

/// Whether no number without a sign is read of any bytes.
fn none_is_unsigned(rows: &[&[u8]]) -> bool {
    for bytes in rows {
        if split_uleb(bytes).is_some() {
            return false;
        }
    }
    true
}

/// The same with a sign.
fn none_is_signed(rows: &[&[u8]]) -> bool {
    for bytes in rows {
        if split_sleb(bytes).is_some() {
            return false;
        }
    }
    true
}

/// Whether four bytes are a number, and are cut off of five.
fn is_split(number: u32) -> bool {
    match split_u32(&[1, 2, 0, 0, 7]) {
        Some((n, rest)) => n == number && rest.len() == 1,
        None => false,
    }
}

#[test]
fn numbers_are_written_and_read(rt: HostRuntime) {
    assert_eq!(rt; other_unsigned(UNSIGNED), None);
    assert_eq!(rt; other_signed(SIGNED), None);
    assert!(rt; none_is_unsigned(NOT_UNSIGNED) && none_is_signed(NOT_SIGNED));
    assert!(rt; is_split(0x201) && split_u32(&[1, 2, 0]).is_none());
}
