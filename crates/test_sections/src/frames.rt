//! The call frame information of a function, written by hand from DWARF 5, sections 6.4.1 and 6.4.2, and the same with
//! one byte changed.

use crate::changed::changed;
use crate::frame_rows::{are_descriptions, are_undefined};
use base_list::List;
use dwarf_frame::fault::FrameFault;
use dwarf_frame::read::row_at;
use dwarf_frame::rows::NONE_SAVED;
use dwarf_frame::size::frame_size;
use dwarf_frame::table::{FrameDescription, FrameRow, RegisterRule, Row, RowList, UnwindingRules};
use dwarf_frame::write::write_frame;
use std::alloc::{AllocError, Global};
use std::test::Fail;

/// A function of 44 bytes at 0, with a frame of 16 bytes in which x1 and x18 are saved.
static SECTION: [u8; 64] = [
    0x14, 0, 0, 0, 0xff, 0xff, 0xff, 0xff, 4, 0, 8, 0, 4, 0x78, 1, 0x0c, 2, 0, 0, 0, 0, 0, 0, 0,
    0x24, 0, 0, 0, 0, 0, 0, 0, 0, 0, 0, 0, 0, 0, 0, 0, 0x2c, 0, 0, 0, 0, 0, 0, 0, 0x41, 0x0e, 0x10,
    0x42, 0x81, 2, 0x92, 1, 0x47, 0x0e, 0, 0xc1, 0xd2, 0, 0, 0,
];

/// The registers that a callee may write (RISC-V ELF psABI, "Integer Register Convention").
static TEMPORARY: [u8; 15] = [5, 6, 7, 10, 11, 12, 13, 14, 15, 16, 17, 28, 29, 30, 31];

/// The common information entry of sections in which those are undefined.
static TEMPORARY_COMMON: [u8; 48] = [
    0x2c, 0, 0, 0, 0xff, 0xff, 0xff, 0xff, 4, 0, 8, 0, 4, 0x78, 1, 0x0c, 2, 0, 7, 5, 7, 6, 7, 7, 7,
    10, 7, 11, 7, 12, 7, 13, 7, 14, 7, 15, 7, 16, 7, 17, 7, 28, 7, 29, 7, 30, 7, 31,
];

/// A byte of the section that is changed, what it becomes, and the first wrong field's first byte: the section's length
/// where none is.
const DAMAGED: &[(usize, u8, usize)] = &[
    (0, 0x1c, 0),
    (7, 0, 4),
    (8, 3, 8),
    (13, 0x7c, 13),
    (23, 1, 23),
    (24, 0x1c, 56),
    (24, 0x25, 24),
    (28, 1, 28),
    (39, 0xff, 64),
    (40, 0x24, 56),
    // An advance by 0, another offset, and one that stays
    (48, 0x40, 48),
    (50, 0x20, 64),
    (50, 0, 50),
    // Registers out of order, one that is never saved, and restored that weren't saved
    (54, 0x81, 54),
    (52, 0x80, 52),
    (52, 0x82, 52),
    (59, 0xc2, 59),
    (60, 0xd3, 60),
    // An advance to the end, and padding that isn't zero
    (61, 0x41, 61),
    (63, 1, 63),
];

/// The rules without a frame.
fn outside() -> FrameRow {
    FrameRow {
        cfa_offset: 0,
        saved: NONE_SAVED,
    }
}

/// The rules with a frame, before registers are saved.
fn framed() -> FrameRow {
    FrameRow {
        cfa_offset: 16,
        saved: NONE_SAVED,
    }
}

/// The rules with x1 and x18 in the frame.
fn saving() -> FrameRow {
    let mut saved = NONE_SAVED;
    saved[1] = Some(16);
    saved[18] = Some(8);
    FrameRow {
        cfa_offset: 16,
        saved,
    }
}

/// The rules of an address by a section with these registers undefined, if it has some.
fn rules_at(undefined: &[u8], bytes: &[u8], address: u64) -> Option<UnwindingRules> {
    if !are_undefined(undefined) {
        return None;
    }
    match row_at(undefined, bytes, address) {
        Ok(rules) => rules,
        Err(_) => None,
    }
}

/// The rules of a row: each register but x2 has its own value where it isn't saved.
fn wanted(row: &FrameRow) -> UnwindingRules {
    let mut registers = [RegisterRule::SameValue; 32];
    registers[2] = RegisterRule::FrameAddress;
    for register in 0..32 {
        if let Some(distance) = row.saved[register] {
            registers[register] = RegisterRule::Below(distance);
        }
    }
    UnwindingRules {
        cfa_offset: row.cfa_offset,
        registers,
    }
}

/// Whether these are the rules of an address by a section without undefined registers.
fn is_at(bytes: &[u8], address: u64, row: &FrameRow) -> bool {
    match rules_at(&[], bytes, address) {
        Some(rules) => rules == wanted(row),
        None => false,
    }
}

/// Whether a section has no rules for an address.
fn is_none_at(bytes: &[u8], address: u64) -> bool {
    match row_at(&[], bytes, address) {
        Ok(None) => true,
        _ => false,
    }
}

/// Where a section's first wrong field is, and its length where none is.
fn fault(bytes: &[u8]) -> usize {
    match row_at(&[], bytes, 0) {
        Err(FrameFault { at }) => at,
        Ok(_) => bytes.len(),
    }
}

/// The first byte of the table of changes where the fault is another one.
fn other_fault(
    alloc: Global,
    bytes: &[u8],
    damaged: &[(usize, u8, usize)],
) -> Result<Option<usize>, Fail> {
    for (at, byte, wanted) in damaged {
        let bytes = changed(alloc, bytes, *at, *byte)?;
        if fault(&bytes) != *wanted {
            return Ok(Some(*at));
        }
    }
    Ok(None)
}

/// Appends a row.
fn push(rows: &mut RowList, address: u64, rules: &FrameRow) -> Result<(), AllocError> {
    rows.push(Row {
        address,
        rules: *rules,
    })
}

/// The function of the section.
pub(crate) fn function(alloc: Global) -> Result<FrameDescription, AllocError> {
    let mut rows = List::new(alloc);
    push(&mut rows, 4, &framed())?;
    push(&mut rows, 0x0c, &saving())?;
    push(&mut rows, 0x28, &outside())?;
    Ok(FrameDescription {
        start: 0,
        size: 0x2c,
        rows,
    })
}

/// Whether the section of functions, with these registers undefined, is this one, and its size is as told.
fn is_section(
    alloc: Global,
    undefined: &[u8],
    functions: &[FrameDescription],
    bytes: &[u8],
) -> bool {
    if !are_descriptions(functions) || !are_undefined(undefined) {
        return false;
    }
    let Some(size) = frame_size(undefined, functions) else {
        return false;
    };
    match write_frame(alloc, undefined, functions) {
        Ok(written) => written.as_slice() == bytes && bytes.len() == size as usize,
        Err(_) => false,
    }
}

/// The section in which the temporary registers are undefined.
fn with_temporary(alloc: Global) -> Result<List<u8>, AllocError> {
    let mut section = List::new(alloc);
    section.extend_from_slice(&TEMPORARY_COMMON)?;
    section.extend_from_slice(&SECTION[24..])?;
    Ok(section)
}

/// Whether registers have the rules of address 0x0c in that section.
fn are_saving(rules: &UnwindingRules) -> bool {
    rules.registers[0] == RegisterRule::SameValue
        && rules.registers[1] == RegisterRule::Below(16)
        && rules.registers[2] == RegisterRule::FrameAddress
        && rules.registers[8] == RegisterRule::SameValue
        && rules.registers[10] == RegisterRule::Undefined
        && rules.registers[18] == RegisterRule::Below(8)
}

/// Whether a section has those rules.
fn has_saving(bytes: &[u8]) -> bool {
    match rules_at(&TEMPORARY, bytes, 0x0c) {
        Some(rules) => are_saving(&rules),
        None => false,
    }
}

/// Whether the section of the function, with these registers undefined, is this one.
fn is_section_of_function(
    alloc: Global,
    undefined: &[u8],
    bytes: &[u8],
) -> Result<bool, AllocError> {
    let functions = vec![in alloc; function(alloc)?]?;
    Ok(is_section(alloc, undefined, &functions, bytes))
}

#[test]
fn frames_are_read_and_written(rt: HostRuntime) -> Result<(), Fail> {
    let alloc = rt.alloc();
    assert!(rt; is_at(&SECTION, 0, &outside()));
    assert!(rt; is_at(&SECTION, 4, &framed()));
    assert!(rt; is_at(&SECTION, 0x0c, &saving()));
    assert!(rt; is_at(&SECTION, 0x28, &outside()));
    assert!(rt; is_none_at(&SECTION, 0x2c));
    assert_eq!(rt; other_fault(alloc, &SECTION, DAMAGED)?, None);
    assert!(rt; is_section_of_function(alloc, &[], &SECTION)?);
    Ok(())
}

#[test]
fn lost_registers_are_undefined(rt: HostRuntime) -> Result<(), Fail> {
    let section = with_temporary(rt.alloc())?;
    assert!(rt; is_section_of_function(rt.alloc(), &TEMPORARY, section.as_slice())?);
    assert!(rt; has_saving(section.as_slice()));
    Ok(())
}
