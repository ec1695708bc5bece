//! What virtual registers get, from live intervals and masks of blocked registers.

use rv64_instr::reg::{self, Reg, Registers};
use scan_allocation::assignment::RegisterAssignment;
use scan_allocation::order::order_without;
use scan_allocation::walk::walk;
use scan_intervals::blocked::BlockedRegisters;
use scan_intervals::interval::{LiveInterval, LiveIntervals};
use std::alloc::Global;
use std::test::Fail;

/// A row: the masks of the code, the registers that aren't given, the intervals by register, start and end, and the
/// numbers of the physical registers that they get; 0 for a register that is left to a slot.
struct Row {
    shows: &'static str,
    masks: &'static [u32],
    reserve: &'static [u32],
    scratch: &'static [u32],
    intervals: &'static [(u32, u32, u32)],
    wanted: &'static [u32],
}

/// Each by hand: first x7, then x28 to x31, and the next one where an earlier interval has a code in common or the
/// register's bit is set in a mask from the start to the end.
const ROWS: &[Row] = &[
    Row {
        shows: "one register serves intervals that don't meet",
        masks: &[0, 0, 0, 0],
        reserve: &[],
        scratch: &[5, 6],
        intervals: &[(32, 0, 1), (33, 2, 3)],
        wanted: &[7, 7],
    },
    Row {
        shows: "intervals with one code in common meet",
        masks: &[0, 0, 0],
        reserve: &[],
        scratch: &[5, 6],
        intervals: &[(32, 0, 1), (33, 1, 2)],
        wanted: &[7, 28],
    },
    Row {
        shows: "a register that is blocked at the interval's last code isn't given",
        masks: &[0, 0, 0x80],
        reserve: &[],
        scratch: &[5, 6],
        intervals: &[(32, 0, 2), (33, 0, 1)],
        wanted: &[28, 7],
    },
    Row {
        shows: "what is left to a slot holds no register",
        masks: &[0xffff_ffff, 0],
        reserve: &[],
        scratch: &[5, 6],
        intervals: &[(32, 0, 1), (33, 1, 1)],
        wanted: &[0, 7],
    },
    Row {
        shows: "no reserved register and no scratch register is given",
        masks: &[0, 0],
        reserve: &[28, 30],
        scratch: &[7, 29],
        intervals: &[(32, 0, 1), (33, 0, 1)],
        wanted: &[31, 11],
    },
    Row {
        shows: "an interval past the masks is clear",
        masks: &[],
        reserve: &[],
        scratch: &[5, 6],
        intervals: &[(32, 5, 6)],
        wanted: &[7],
    },
];

fn registers(alloc: Global, numbers: &[u32]) -> Result<Registers, Fail> {
    let mut registers = Registers::new(alloc);
    for n in numbers {
        if let Some(r) = reg::physical(*n) {
            registers.push(r)?;
        }
    }
    Ok(registers)
}

fn intervals(alloc: Global, spans: &[(u32, u32, u32)]) -> Result<LiveIntervals, Fail> {
    let mut list = LiveIntervals::new(alloc);
    for (n, start, end) in spans {
        if let Some(register) = Reg::new(*n) {
            list.push(LiveInterval {
                register,
                start: *start,
                end: *end,
            })?;
        }
    }
    Ok(list)
}

/// Whether assignments give registers with these numbers, or none where the number is 0.
fn are_numbered(assignments: &[RegisterAssignment], numbers: &[u32]) -> bool {
    for (assignment, number) in assignments.iter().zip(numbers) {
        let given = match assignment.given {
            Some(r) => r.number(),
            None => 0,
        };
        if given != *number {
            return false;
        }
    }
    assignments.len() == numbers.len()
}

/// Whether a row's intervals get its registers, without these.
fn are_given(alloc: Global, row: &Row, reserve: &[Reg], scratch: &[Reg]) -> Result<bool, Fail> {
    let list = intervals(alloc, row.intervals)?;
    let order = order_without(alloc, reserve, scratch)?;
    let masks = Vec::from_slice(alloc, row.masks)?;
    let blocked = BlockedRegisters { masks };
    let assignments = walk(alloc, &blocked, order.as_slice(), list.as_slice())?;
    Ok(are_numbered(assignments.as_slice(), row.wanted))
}

/// Whether a row's intervals get its registers.
fn is_as_shown(alloc: Global, row: &Row) -> Result<bool, Fail> {
    let reserve = registers(alloc, row.reserve)?;
    let scratch = registers(alloc, row.scratch)?;
    are_given(alloc, row, reserve.as_slice(), scratch.as_slice())
}

/// What the first row shows that isn't so.
fn other_row(alloc: Global, rows: &[Row]) -> Result<Option<&'static str>, Fail> {
    for row in rows {
        if !is_as_shown(alloc, row)? {
            return Ok(Some(row.shows));
        }
    }
    Ok(None)
}

#[test]
fn intervals_get_what_the_rows_say(rt: HostRuntime) -> Result<(), Fail> {
    assert_eq!(rt; other_row(rt.alloc(), ROWS)?, None);
    Ok(())
}
