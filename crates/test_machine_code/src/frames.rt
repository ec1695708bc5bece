//! The call frame information of small functions.

use crate::tests::{RETURN, code};
use dwarf_frame::rows::NONE_SAVED;
use dwarf_frame::table::{FrameDescription, FrameRow, Row};
use frame_table::description::description;
use std::alloc::Global;
use std::test::Fail;

/// A row: its address, how far x2 is below its value at entry, and each saved register with its distance below that
/// value, in bytes.
type Change = (u64, u64, &'static [(usize, u64)]);

/// A function that calls another, and saves x1 and x18.
const CALL: &[u8] = b"---
name: f
body: |
  bb.0:
    $x18 = COPY $x10
    PseudoCALL @g, csr_ilp32_lp64, implicit-def dead $x1, implicit $x10, implicit-def $x10
    $x10 = ADD $x10, $x18
    PseudoRET implicit $x10
...
";

/// A function with a return before its end.
const TWO_RETURNS: &[u8] = b"---
name: f
body: |
  bb.0:
    BEQ $x10, $x0, %bb.2
  bb.1:
    PseudoRET
  bb.2:
    $x9 = ADDI $x10, 1
    $x10 = COPY $x9
    PseudoRET implicit $x10
...
";

/// A function that saves no register, and has a slot.
const SLOT: &[u8] = b"---
name: f
stack:
  - { id: 0, size: 8 }
body: |
  bb.0:
    SD $x10, %stack.0, 0
    $x11 = LD %stack.0, 0
    PseudoRET implicit $x11
...
";

/// A function that saves x1 below two stack objects.
const OBJECTS: &[u8] = b"---
name: f
stack:
  - { id: 0, size: 40, alignment: 8 }
  - { id: 1, size: 1, alignment: 16 }
body: |
  bb.0:
    $x10 = ADDI %stack.0, 0
    PseudoCALL @g, csr_ilp32_lp64, implicit-def dead $x1, implicit $x10, implicit-def $x10
    PseudoRET implicit $x10
...
";

/// A function that never returns.
const FOREVER: &[u8] = b"---
name: f
body: |
  bb.0:
    $x9 = ADDI $x10, 1
  bb.1:
    PseudoBR %bb.1
...
";

/// Functions, the size of each one's code, and its rows.
const FUNCTIONS: &[(&[u8], u64, &[Change])] = &[
    (RETURN, 4, &[]),
    (
        CALL,
        0x2c,
        &[(4, 16, &[]), (12, 16, &[(1, 16), (18, 8)]), (0x28, 0, &[])],
    ),
    (
        TWO_RETURNS,
        0x2c,
        &[
            (4, 16, &[]),
            (8, 16, &[(9, 16)]),
            (0x14, 0, &[]),
            (0x18, 16, &[(9, 16)]),
            (0x28, 0, &[]),
        ],
    ),
    (SLOT, 0x14, &[(4, 16, &[]), (0x10, 0, &[])]),
    (
        OBJECTS,
        0x20,
        &[(4, 80, &[]), (8, 80, &[(1, 80)]), (0x1c, 0, &[])],
    ),
    (FOREVER, 0x10, &[(4, 16, &[]), (8, 16, &[(9, 16)])]),
];

/// The rules of a row.
fn rules(offset: u64, saved: &[(usize, u64)]) -> FrameRow {
    let mut distances = NONE_SAVED;
    for (register, distance) in saved {
        if *register < distances.len() {
            distances[*register] = Some(*distance);
        }
    }
    FrameRow {
        cfa_offset: offset,
        saved: distances,
    }
}

/// Whether rows are these.
fn are_rows(rows: &[Row], wanted: &[Change]) -> bool {
    if rows.len() != wanted.len() {
        return false;
    }
    for k in 0..rows.len() {
        let (address, offset, saved) = wanted[k];
        if rows[k].address != address || rows[k].rules != rules(offset, saved) {
            return false;
        }
    }
    true
}

/// Whether a function at 0 has this size and these rows.
fn is_described(found: &FrameDescription, size: u64, rows: &[Change]) -> bool {
    found.start == 0 && found.size == size && are_rows(found.rows.as_slice(), rows)
}

/// The size of the first function that is described otherwise.
fn other(alloc: Global, functions: &[(&[u8], u64, &[Change])]) -> Result<Option<u64>, Fail> {
    for (text, size, rows) in functions {
        let code = code(alloc, text)?;
        if !is_described(&description(alloc, &code)?, *size, rows) {
            return Ok(Some(*size));
        }
    }
    Ok(None)
}

#[test]
fn describes_functions(rt: HostRuntime) -> Result<(), Fail> {
    assert!(rt; other(rt.alloc(), FUNCTIONS)? == None);
    Ok(())
}
