//! Where physical registers are clear, by the masks of the code.

use rv64_instr::reg::{Reg, physical};
use scan_intervals::blocked::BlockedRegisters;
use scan_intervals::interval::LiveInterval;
use std::alloc::Global;

/// A row: the masks of the code, the numbers of an interval's first and last code, and the number of a physical register.
struct Row {
    shows: &'static str,
    masks: &'static [u32],
    start: u32,
    end: u32,
    register: u32,
    wanted: bool,
}

/// Each by hand: x7 has bit 0x80, and x31 the highest bit.
const ROWS: &[Row] = &[
    Row {
        shows: "its bit is set at the first code",
        masks: &[0, 0x80, 0, 0],
        start: 1,
        end: 2,
        register: 7,
        wanted: false,
    },
    Row {
        shows: "its bit is set at the last code",
        masks: &[0, 0, 0x80, 0],
        start: 1,
        end: 2,
        register: 7,
        wanted: false,
    },
    Row {
        shows: "its bit is set before the interval and behind it",
        masks: &[0x80, 0, 0, 0x80],
        start: 1,
        end: 2,
        register: 7,
        wanted: true,
    },
    Row {
        shows: "all other bits are set",
        masks: &[0xffff_ff7f, 0xffff_ff7f],
        start: 0,
        end: 1,
        register: 7,
        wanted: true,
    },
    Row {
        shows: "the highest bit",
        masks: &[0x8000_0000],
        start: 0,
        end: 0,
        register: 31,
        wanted: false,
    },
    Row {
        shows: "an interval that goes past the masks",
        masks: &[0, 0x80],
        start: 1,
        end: 4_294_967_295,
        register: 7,
        wanted: false,
    },
    Row {
        shows: "an interval behind the masks",
        masks: &[0x80],
        start: 5,
        end: 6,
        register: 7,
        wanted: true,
    },
];

/// A row's interval; `None` if there is no register 32.
fn interval(row: &Row) -> Option<LiveInterval> {
    Some(LiveInterval {
        register: Reg::new(32)?,
        start: row.start,
        end: row.end,
    })
}

/// Whether a row's register is clear in its interval; `None` if there is no such register.
fn is_clear(alloc: Global, row: &Row) -> Option<bool> {
    let interval = interval(row)?;
    let register = physical(row.register)?;
    let masks = Vec::from_slice(alloc, row.masks).ok()?;
    Some(BlockedRegisters { masks }.is_clear(&interval, register))
}

/// What the first row shows that isn't so.
fn other_row(alloc: Global, rows: &[Row]) -> Option<&'static str> {
    for row in rows {
        if is_clear(alloc, row) != Some(row.wanted) {
            return Some(row.shows);
        }
    }
    None
}

#[test]
fn registers_are_clear_where_the_rows_say(rt: HostRuntime) {
    assert_eq!(rt; other_row(rt.alloc(), ROWS), None);
}
