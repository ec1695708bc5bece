//! Location lists written by hand from DWARF 5 section 7.29, and damaged ones.

use crate::changed::changed;
use base_ids::function_ids::SlotId;
use dwarf_loclists::entry::push_entry;
use dwarf_loclists::fault::ListFault;
use dwarf_loclists::range::{Location, Part, Range};
use dwarf_loclists::reader::{list_count, piece_at, place_at};
use rv64_instr::place::Place;
use rv64_instr::reg::physical;
use std::alloc::{AllocError, Global};
use std::test::Fail;

/// The section of one list of one range: x10 from 0 to 8.
static ONE: [u8; 22] = [
    0x12, 0, 0, 0, 5, 0, 8, 0, 1, 0, 0, 0, 4, 0, 0, 0, 4, 0, 8, 1, 0x5a, 0,
];

/// A byte of it that is changed, what it becomes, and where the first wrong field is.
const DAMAGED: &[(usize, u8, usize)] = &[
    (0, 0x13, 0),
    (4, 4, 4),
    (6, 4, 6),
    (7, 1, 7),
    (8, 2, 12),
    (12, 5, 12),
    (16, 5, 16),
    (17, 8, 18),
    (18, 0, 18),
    (20, 0x52, 20),
    (21, 1, 21),
];

/// A byte of it, which of its bits are turned over, one at a time, and where the first wrong field is then: nowhere, if
/// the section still says something.
const TURNED: &[(usize, u8, Option<usize>)] = &[
    (0, 0xff, Some(0)),
    (1, 0xff, Some(0)),
    (2, 0xff, Some(0)),
    (3, 0xff, Some(0)),
    (4, 0xff, Some(4)),
    (5, 0xff, Some(4)),
    (6, 0xff, Some(6)),
    (7, 0xff, Some(7)),
    (8, 0xfe, Some(8)),
    (8, 0x01, Some(12)),
    (9, 0xff, Some(8)),
    (10, 0xff, Some(8)),
    (11, 0xff, Some(8)),
    (12, 0xff, Some(12)),
    (13, 0xff, Some(12)),
    (14, 0xff, Some(12)),
    (15, 0xff, Some(12)),
    (16, 0xfb, Some(16)),
    (16, 0x04, Some(17)),
    (17, 0x78, Some(18)),
    (17, 0x80, Some(19)),
    (17, 0x07, None),
    (18, 0x08, Some(18)),
    (18, 0x80, Some(21)),
    (18, 0x77, None),
    (19, 0x7f, Some(20)),
    (19, 0x80, Some(21)),
    (20, 0xf8, Some(20)),
    (20, 0x07, None),
    (21, 0xfb, Some(21)),
    (21, 0x04, Some(22)),
];

/// Sections of one range, of which a number is beyond its bounds: an end at 2^64, and a constant of 2^63.
const BEYOND: &[(&[u8], usize)] = &[
    (
        &[
            0x1b, 0, 0, 0, 5, 0, 8, 0, 1, 0, 0, 0, 4, 0, 0, 0, 4, 0, 0x80, 0x80, 0x80, 0x80, 0x80,
            0x80, 0x80, 0x80, 0x80, 2, 1, 0x5a, 0,
        ],
        18,
    ),
    (
        &[
            0x1d, 0, 0, 0, 5, 0, 8, 0, 1, 0, 0, 0, 4, 0, 0, 0, 4, 0, 4, 12, 0x11, 0x80, 0x80, 0x80,
            0x80, 0x80, 0x80, 0x80, 0x80, 0x80, 1, 0x9f, 0,
        ],
        20,
    ),
];

/// A section of two lists of two ranges each.
static TWO: [u8; 42] = [
    0x26, 0, 0, 0, 5, 0, 8, 0, 2, 0, 0, 0, 8, 0, 0, 0, 0x13, 0, 0, 0, 4, 0x10, 0x14, 1, 0x5a, 4,
    0x14, 0x18, 1, 0x58, 0, 4, 0x18, 0x40, 1, 0x59, 4, 0x40, 0x48, 1, 0x5a, 0,
];

/// A section of one list of two ranges: x11, and in two pieces behind a gap x10 and x11.
static PIECES: [u8; 34] = [
    0x1e, 0, 0, 0, 5, 0, 8, 0, 1, 0, 0, 0, 4, 0, 0, 0, 4, 4, 8, 1, 0x5b, 4, 8, 16, 8, 0x93, 2,
    0x5a, 0x93, 4, 0x5b, 0x93, 1, 0,
];

/// The same of the bytes of this list.
const TURNED_PIECES: &[(usize, u8, Option<usize>)] = &[
    (16, 0xfb, Some(16)),
    (16, 0x04, Some(17)),
    (17, 0x78, Some(18)),
    (17, 0x80, Some(19)),
    (17, 0x07, None),
    (18, 0x08, Some(18)),
    (18, 0x80, Some(21)),
    (18, 0x77, Some(22)),
    (19, 0x7f, Some(20)),
    (19, 0x80, Some(21)),
    (20, 0xf0, Some(20)),
    (20, 0x0f, None),
    (21, 0xfb, Some(21)),
    (21, 0x04, Some(22)),
    (22, 0x08, Some(22)),
    (22, 0x70, Some(23)),
    (22, 0x80, Some(24)),
    (22, 0x07, None),
    (23, 0x10, Some(23)),
    (23, 0x80, Some(27)),
    (23, 0x6f, None),
    (24, 0x7f, Some(25)),
    (24, 0x80, Some(27)),
    (25, 0xff, Some(25)),
    (26, 0x82, Some(25)),
    (26, 0x7d, None),
    (27, 0xf8, Some(25)),
    (27, 0x07, None),
    (28, 0xff, Some(25)),
    (29, 0xfc, Some(25)),
    (29, 0x03, None),
    (30, 0xf0, Some(25)),
    (30, 0x0f, None),
    (31, 0xff, Some(25)),
    (32, 0xf9, Some(25)),
    (32, 0x06, None),
    (33, 0xfb, Some(33)),
    (33, 0x04, Some(34)),
];

/// Addresses, and the number of the register that has the whole there, or 0.
const WHOLE: &[(u64, u32)] = &[(3, 0), (4, 11), (7, 11), (8, 0)];

/// Addresses, numbers of pieces, and the piece: its first byte, its length and the number of its register, or 0.
const PARTS: &[(u64, u32, u32, u32, u32)] = &[
    (7, 0, 0, 0, 0),
    (8, 0, 2, 4, 10),
    (15, 1, 6, 1, 11),
    (15, 2, 0, 0, 0),
    (16, 0, 0, 0, 0),
];

/// The place of a register's number, and none of 0.
fn register(n: u32) -> Option<Place> {
    match physical(n) {
        Some(register) if n > 0 => Some(Place::Register(register)),
        _ => None,
    }
}

/// A part in a register, and none where its number is 0.
fn part(offset: u32, length: u32, n: u32) -> Option<Part> {
    match register(n) {
        Some(place) => Some(Part {
            offset,
            length,
            place,
        }),
        None => None,
    }
}

/// What a list of a section that is right gives at an address, and none where it has fewer lists.
fn place(bytes: &[u8], k: u32, address: u64) -> Result<Option<Place>, ListFault> {
    if k < list_count(bytes)? {
        place_at(bytes, k, address)
    } else {
        Ok(None)
    }
}

/// The piece of such a number.
fn piece(bytes: &[u8], k: u32, address: u64, n: u32) -> Result<Option<Part>, ListFault> {
    if k < list_count(bytes)? {
        piece_at(bytes, k, address, n)
    } else {
        Ok(None)
    }
}

/// Where a section's first wrong field is.
fn fault(bytes: &[u8]) -> Option<usize> {
    match list_count(bytes) {
        Err(fault) => Some(fault.at),
        Ok(_) => None,
    }
}

/// The first byte of a table of changes where the fault is another one.
fn other_fault(
    alloc: Global,
    bytes: &[u8],
    damaged: &[(usize, u8, usize)],
) -> Result<Option<usize>, Fail> {
    for (at, byte, wanted) in damaged {
        let bytes = changed(alloc, bytes, *at, *byte)?;
        if fault(&bytes) != Some(*wanted) {
            return Ok(Some(*at));
        }
    }
    Ok(None)
}

/// Whether the fault is this one where any of these bits of a byte is turned over.
fn is_fault_of_turns(
    alloc: Global,
    bytes: &[u8],
    at: usize,
    bits: u8,
    wanted: Option<usize>,
) -> Result<bool, Fail> {
    let byte = *bytes.get(at).ok_or("a byte")?;
    for bit in [1u8, 2, 4, 8, 16, 32, 64, 128] {
        if bits & bit != 0 {
            let bytes = changed(alloc, bytes, at, byte ^ bit)?;
            if fault(&bytes) != wanted {
                return Ok(false);
            }
        }
    }
    Ok(true)
}

/// The first byte of a table where the fault is another one with a bit turned over.
fn other_turn(
    alloc: Global,
    bytes: &[u8],
    turned: &[(usize, u8, Option<usize>)],
) -> Result<Option<usize>, Fail> {
    for (at, bits, wanted) in turned {
        if !is_fault_of_turns(alloc, bytes, *at, *bits, *wanted)? {
            return Ok(Some(*at));
        }
    }
    Ok(None)
}

/// The first fault of a row that is another one.
fn other_beyond(rows: &[(&[u8], usize)]) -> Option<usize> {
    for (bytes, at) in rows {
        if fault(bytes) != Some(*at) {
            return Some(*at);
        }
    }
    None
}

/// The first length from which on a prefix isn't wrong.
fn other_prefix(bytes: &[u8]) -> Option<usize> {
    for n in 0..bytes.len() {
        if fault(&bytes[..n]) != Some(0) {
            return Some(n);
        }
    }
    None
}

/// The first address where another register has the whole.
fn other_whole(bytes: &[u8], rows: &[(u64, u32)]) -> Option<u64> {
    for (address, n) in rows {
        if place(bytes, 0, *address) != Ok(register(*n)) {
            return Some(*address);
        }
    }
    None
}

/// The first address of a row with another piece.
fn other_part(bytes: &[u8], rows: &[(u64, u32, u32, u32, u32)]) -> Option<u64> {
    for (address, k, offset, length, n) in rows {
        if piece(bytes, 0, *address, *k) != Ok(part(*offset, *length, *n)) {
            return Some(*address);
        }
    }
    None
}

/// Whether these are the bytes of the entry of a slot at an offset that no frame of a text reaches.
fn is_slot_entry(alloc: Global, wanted: &[u8]) -> Result<bool, AllocError> {
    let slot = Range {
        lo: 200,
        hi: 300,
        location: Location::Whole(Place::Slot(SlotId(2024))),
    };
    let mut bytes = Vec::new(alloc);
    push_entry(&mut bytes, &slot)?;
    Ok(bytes.as_slice() == wanted)
}

#[test]
fn lists_are_read(rt: HostRuntime) -> Result<(), Fail> {
    assert!(rt;
        list_count(&ONE) == Ok(1) && list_count(&TWO) == Ok(2) && list_count(&PIECES) == Ok(1)
    );
    assert_eq!(rt; other_whole(&PIECES, WHOLE), None);
    assert_eq!(rt; other_part(&PIECES, PARTS), None);
    Ok(())
}

#[test]
fn damaged_lists_are_not_read(rt: HostRuntime) -> Result<(), Fail> {
    assert_eq!(rt; other_fault(rt.alloc(), &ONE, DAMAGED)?, None);
    assert_eq!(rt; other_turn(rt.alloc(), &ONE, TURNED)?, None);
    assert_eq!(rt; other_turn(rt.alloc(), &PIECES, TURNED_PIECES)?, None);
    assert_eq!(rt; other_beyond(BEYOND), None);
    // each proper prefix is wrong from its length on
    assert_eq!(rt; other_prefix(&TWO), None);
    Ok(())
}

#[test]
fn entries_are_written(rt: HostRuntime) -> Result<(), Fail> {
    let wanted = [4, 0xc8, 1, 0xac, 2, 3, 0x72, 0xe8, 0x0f];
    assert!(rt; is_slot_entry(rt.alloc(), wanted.as_slice())?);
    Ok(())
}
