//! Location lists that are true in every frame.

use base_ids::function_ids::SlotId;
use compile_function::compiled_function::compile_function;
use dwarf_loclists::range::{Location, Range, RangeLists, Ranges};
use kept_lists::lists::kept_lists;
use pass_trait::loss::Losses;
use read_program::closing::Parsed;
use read_program::program::read_program;
use rv64_instr::place::Place;
use rv64_instr::reg::physical;
use std::alloc::Global;
use std::test::Fail;

/// The first and the last address of a range, and its place: a register (x), a slot by its offset (s), or a constant (c).
type Row = (u64, u64, char, u32);

/// Functions, and the ranges of their first variable.
const ROWS: &[(&str, &[Row])] = &[
    // a register that the callee may set
    (
        "body: |\n  bb.0:\n    DBG_VALUE $x11, $noreg, !4, !DIExpression()\n    \
         PseudoCALL @g, csr, implicit-def $x1, implicit $x10, implicit-def $x10\n    PseudoRET implicit $x10\n",
        &[(0x08, 0x0c, 'x', 11)],
    ),
    // a constant
    (
        "body: |\n  bb.0:\n    DBG_VALUE 7, $noreg, !4, !DIExpression()\n    \
         PseudoCALL @g, csr, implicit-def $x1, implicit $x10, implicit-def $x10\n    PseudoRET implicit $x10\n",
        &[(0x08, 0x1c, 'c', 7)],
    ),
    // a register that it saves
    (
        "body: |\n  bb.0:\n    DBG_VALUE $x10, $noreg, !4, !DIExpression()\n    $x18 = COPY $x10\n    \
         PseudoCALL @g, csr, implicit-def $x1, implicit $x10, implicit-def $x10\n    $x10 = COPY $x18\n    \
         PseudoRET implicit $x10\n",
        &[
            (0x0c, 0x14, 'x', 10),
            (0x14, 0x1c, 'x', 18),
            (0x1c, 0x2c, 'x', 10),
        ],
    ),
    // a slot
    (
        "stack:\n  - { id: 0, size: 8 }\nbody: |\n  bb.0:\n    DBG_VALUE $x10, $noreg, !4, !DIExpression()\n    \
         SD $x10, %stack.0, 0\n    \
         PseudoCALL @g, csr, implicit-def $x1, implicit $x10, implicit-def $x10\n    $x10 = LD %stack.0, 0\n    \
         PseudoRET implicit $x10\n",
        &[
            (0x08, 0x10, 'x', 10),
            (0x10, 0x18, 's', 0),
            (0x18, 0x24, 'x', 10),
        ],
    ),
    // the slot of the saved return address
    (
        "body: |\n  bb.0:\n    DBG_VALUE $x1, $noreg, !4, !DIExpression()\n    \
         PseudoCALL @g, csr, implicit-def $x1, implicit $x10, implicit-def $x10\n    PseudoRET implicit $x10\n",
        &[
            (0x08, 0x0c, 'x', 1),
            (0x0c, 0x14, 's', 0),
            (0x14, 0x1c, 'x', 1),
        ],
    ),
    // a call of one word
    (
        "body: |\n  bb.0:\n    DBG_VALUE $x11, $noreg, !4, !DIExpression()\n    \
         PseudoCALLIndirect $x12, csr, implicit-def $x1, implicit $x10, implicit-def $x10\n    \
         PseudoRET implicit $x10\n",
        &[(0x08, 0x0b, 'x', 11)],
    ),
];

/// The function of a text, in the linked language.
fn function_of(alloc: Global, rest: &str) -> Result<Parsed, Fail> {
    let mut text = String::from_str(alloc, "---\nname: f\n")?;
    text.push_str(rest)?;
    text.push_str("...\n")?;
    let bytes = text.as_bytes();
    if 16_777_216 < bytes.len() {
        return Err(Fail::from("a long text"));
    }
    let mut functions = read_program(alloc, true, bytes)?.functions.into_vec();
    Ok(functions.pop().ok_or("a function")?)
}

/// The lists of a function's variables.
fn lists_of(alloc: Global, text: &str) -> Result<RangeLists, Fail> {
    let parsed = function_of(alloc, text)?;
    let losses = Losses::new(alloc);
    let compiled = compile_function(alloc, &parsed.func, &parsed.func, &parsed.subs, losses, 0)?;
    Ok(kept_lists(
        alloc,
        compiled.variables.as_slice(),
        &parsed.subs,
        &compiled.code,
    )?)
}

/// The location of a row.
fn location_of(kind: char, n: u32) -> Result<Location, Fail> {
    match kind {
        'x' => Ok(Location::Whole(Place::Register(physical(n).ok_or("no register")?))),
        's' => Ok(Location::Whole(Place::Slot(SlotId(n)))),
        _ => Ok(Location::Whole(Place::Const(i64::from(n)))),
    }
}

/// Whether a range is this one.
fn is_range(range: &Range, wanted: &Row) -> Result<bool, Fail> {
    let (lo, hi, kind, n) = *wanted;
    let location = location_of(kind, n)?;
    Ok(range.lo == lo && range.hi == hi && range.location.equals(&location))
}

/// Whether the ranges of a list are these.
fn are_ranges(list: &Ranges, wanted: &[Row]) -> Result<bool, Fail> {
    if list.len() != wanted.len() {
        return Ok(false);
    }
    for (range, wanted) in list.as_slice().iter().zip(wanted) {
        if !is_range(range, wanted)? {
            return Ok(false);
        }
    }
    Ok(true)
}

/// Whether the ranges of a function's first variable are these.
fn has_ranges(alloc: Global, text: &str, wanted: &[Row]) -> Result<bool, Fail> {
    let lists = lists_of(alloc, text)?;
    match lists.as_slice().first() {
        Some(list) => are_ranges(list, wanted),
        None => Ok(false),
    }
}

/// The number of the first row with other ranges.
fn other_ranges(alloc: Global, rows: &[(&str, &[Row])]) -> Result<Option<usize>, Fail> {
    for (row, (text, wanted)) in rows.iter().enumerate() {
        if !has_ranges(alloc, text, wanted)? {
            return Ok(Some(row));
        }
    }
    Ok(None)
}

#[test]
fn suspended_frames_have_what_a_callee_keeps(rt: HostRuntime) -> Result<(), Fail> {
    assert_eq!(rt; other_ranges(rt.alloc(), ROWS)?, None);
    Ok(())
}
