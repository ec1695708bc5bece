//! Soundness and control flow of functions; parts of variables; substitutions.

use crate::build::{entries, entry, function, pair};
use mir_func::debug_substitution::OperandPair;
use mir_func::func::{Func, FuncError};
use mir_func::object::{counted, next_end, place_of, reach_after, up_to};
use mir_func::successors::Successors;
use mir_func::variable::Fragment;
use mir_substitution::substitutions::Substitutions;
use std::alloc::{AllocError, Global};
use std::test::Fail;

/// A function of three blocks, of which the second is a loop.
const SOUND: &str = "slots 0 0
slots 3 3
object 8 12 4 0
object 9 24 16 16
bb 0
  phi 3 slot 0
  phi 3 none
  #1 ADDI def:10 use:0 5
  part 4 4 4 pair 1 0
bb 1
  #2 ADDI def:10 use:10 -1
  LD def:11 slot:3 0
  LW def:12 object:9 20
  ADDI def:13 object:9 24
  BNE use:10 use:0 to:1
bb 2
  PseudoRET
";

/// The function of the text with something else in one place.
fn changed(alloc: Global, from: &str, to: &str) -> Option<Result<Func, FuncError>> {
    let text = SOUND.replace(alloc, from, to).ok()?;
    function(alloc, text.as_str())
}

/// What stands in the text, what stands there instead, and whether the function is sound then.
const ROWS: &[(&str, &str, bool)] = &[
    ("bb 0", "bb 0", true),
    ("bb 2\n", "bb 1\n", false),
    ("slots 0 0", "slots 3 3", false),
    ("slots 3 3", "slots 3 3\nslots 100 319", true),
    ("slots 3 3", "slots 3 3\nslots 100 320", false),
    ("bb 2", "bb 100 1120\nPseudoBR to:1\nbb 2", true),
    ("bb 2", "bb 100 1121\nPseudoBR to:1\nbb 2", false),
    ("to:1", "to:9", false),
    ("slot:3", "slot:9", false),
    ("slots 0 0", "slots 1 1", false),
    ("use:10 -1", "use:2 -1", false),
    ("#2", "#1", false),
    ("phi 3", "phi 2", false),
    ("bb 1\n", "bb 1 1 4\n", false),
    ("  BNE", "PseudoBR to:1\nBNE", false),
    ("PseudoRET", "", false),
    (
        "8 12 4 0\nobject 9 24 16 16",
        "8 13 1 0\nobject 9 24 8 16",
        true,
    ),
    (
        "8 12 4 0\nobject 9 24 16 16",
        "8 0 16 0\nobject 9 1073741823 2 0",
        true,
    ),
    ("9 24 16 16", "9 24 16 12", false),
    ("9 24 16 16", "9 24 16 32", false),
    ("8 12 4 0", "8 12 4 4", false),
    ("9 24 16 16", "9 24 3 12", false),
    ("9 24 16 16", "9 24 32 32", false),
    ("9 24 16 16", "9 24 0 12", false),
    ("object 8", "object 9", false),
    ("9 24 16 16", "9 1073741824 16 16", false),
    ("  LW", "PseudoCALL g mask outgoing:0\nLW", true),
    ("  LW", "PseudoCALL g mask outgoing:3\nLW", false),
    ("  LW", "PseudoCALL g mask outgoing:0 outgoing:3\nLW", true),
    ("  LW", "PseudoCALL g mask outgoing:3 outgoing:0\nLW", false),
    ("  LW", "PseudoCALL g mask outgoing:0 outgoing:9\nLW", false),
    (
        "  LW",
        "PseudoCALL g mask outgoing:0 outgoing:3 outgoing:0\nLW",
        false,
    ),
    ("object:9 20", "object:8 8", true),
    ("object:9 24", "object:8 12", true),
    ("object:9 20", "object:8 9", false),
    ("object:9 20", "object:8 -4", false),
    ("object:9 24", "object:8 13", true),
    ("object:9 24", "object:8 -1", true),
    ("object:9 24", "object:3 24", false),
    ("object:9", "object:3", false),
    (
        "8 12 4 0\nobject 9 24 16 16",
        "8 12 4 32 - -16\nobject 9 24 16 0",
        true,
    ),
    (
        "8 12 4 0\nobject 9 24 16 16",
        "8 12 4 40 - 8\nobject 9 24 16 0",
        true,
    ),
    (
        "8 12 4 0\nobject 9 24 16 16",
        "8 12 4 32 - 8\nobject 9 24 16 0",
        false,
    ),
    (
        "8 12 4 0\nobject 9 24 16 16",
        "8 12 4 40 8 8\nobject 9 24 16 0",
        false,
    ),
    (
        "8 12 4 0\nobject 9 24 16 16",
        "8 12 4 8 24\nobject 9 24 16 12 20",
        true,
    ),
    (
        "8 12 4 0\nobject 9 24 16 16",
        "8 12 4 24 8\nobject 9 24 16 32\nobject 10 8 8 0 32",
        true,
    ),
    (
        "8 12 4 0\nobject 9 24 16 16",
        "8 12 4 0 24\nobject 9 24 16 12 20",
        false,
    ),
    (
        "8 12 4 0\nobject 9 24 16 16",
        "8 12 4 24 8\nobject 9 24 16 16\nobject 10 8 8 0 32",
        false,
    ),
    ("8 12 4 0", "8 12 4 0 16", false),
    (
        "8 12 4 0\nobject 9 24 16 16",
        "8 12 4 16 0\nobject 9 24 16 0 16",
        false,
    ),
    (
        "8 12 4 0\nobject 9 24 16 16",
        "8 12 4 0 1073741824\nobject 9 24 16 1073741808 16",
        false,
    ),
];

/// Whether the function of the changed text is sound.
fn is_sound(alloc: Global, from: &str, to: &str) -> Option<bool> {
    match changed(alloc, from, to)? {
        Ok(_) => Some(true),
        Err(FuncError::Unsound) => Some(false),
        Err(FuncError::Memory) => None,
    }
}

/// The number of the first row whose function is sound where it shouldn't be, or isn't where it should.
fn other_soundness(alloc: Global, rows: &[(&str, &str, bool)]) -> Option<usize> {
    for (row, (from, to, wanted)) in rows.iter().enumerate() {
        if is_sound(alloc, from, to) != Some(*wanted) {
            return Some(row);
        }
    }
    None
}

/// The texts of blocks in place of others, a block's index, and the blocks where control may go from it.
const WAYS: &[(&str, &str, usize, &[u32])] = &[
    ("bb 0", "bb 0", 0, &[1]),
    ("bb 0", "bb 0", 1, &[1, 2]),
    ("bb 0", "bb 0", 2, &[]),
    ("bb 2", "bb 100\nPseudoBR to:1\nbb 2", 1, &[1, 100]),
    ("bb 2", "bb 100\nPseudoBR to:1\nbb 2", 2, &[1]),
    ("bb 2", "PseudoBR to:0\nbb 2", 1, &[1, 0]),
];

/// Whether successors have these numbers.
fn are_numbered(found: Successors, wanted: &[u32]) -> bool {
    match found {
        Successors::Nowhere => wanted.is_empty(),
        Successors::One(b) => wanted == [b.number()].as_slice(),
        Successors::Two(a, b) => wanted == [a.number(), b.number()].as_slice(),
    }
}

/// Whether control may go from a block to these.
fn has_successors(
    alloc: Global,
    from: &str,
    to: &str,
    index: usize,
    wanted: &[u32],
) -> Option<bool> {
    let f = changed(alloc, from, to)?.ok()?;
    if index < f.blocks.len() {
        Some(are_numbered(f.successors(index), wanted))
    } else {
        None
    }
}

/// The number of the first row whose block has other successors.
fn other_successors(alloc: Global, rows: &[(&str, &str, usize, &[u32])]) -> Option<usize> {
    for (row, (from, to, index, wanted)) in rows.iter().enumerate() {
        if has_successors(alloc, from, to, *index, wanted) != Some(true) {
            return Some(row);
        }
    }
    None
}

#[test]
fn only_sound_functions_are_made(rt: HostRuntime) {
    assert_eq!(rt; other_soundness(rt.alloc(), ROWS), None);
    assert_eq!(rt; other_successors(rt.alloc(), WAYS), None);
}

/// An offset and a length in bytes, and whether they are those of a part.
const PARTS: &[(u32, u32, bool)] = &[
    (0, 1, true),
    (4, 8, true),
    (8_184, 8, true),
    (0, 0, false),
    (0, 9, false),
    (8_185, 8, false),
    (8_192, 1, false),
    (u32::MAX, 1, false),
];

/// Whether there is a part of these bytes where there should be one, with its offset and length.
fn is_part(offset: u32, length: u32, wanted: bool) -> bool {
    match Fragment::new(offset, length) {
        Some(part) => wanted && part.offset() == offset && part.length() == length,
        None => !wanted,
    }
}

/// The number of the first row that isn't so.
fn other_part(rows: &[(u32, u32, bool)]) -> Option<usize> {
    for (row, (offset, length, wanted)) in rows.iter().enumerate() {
        if !is_part(*offset, *length, *wanted) {
            return Some(row);
        }
    }
    None
}

#[test]
fn alignment_and_parts(rt: HostRuntime) {
    assert!(rt; up_to(16, 12) == 16 && up_to(8, 16) == 16);
    assert!(rt; reach_after(8, Some(24)) == 24);
    assert!(rt; place_of(32, 40, 16, Some(24)) == 8 && place_of(32, 40, 16, None) == 48);
    assert!(rt; next_end(40, 50, None) == 50 && next_end(40, 50, Some(24)) == 40);
    assert!(rt; counted(Some(24)) == 1 && counted(None) == 0);
    assert_eq!(rt; other_part(PARTS), None);
}

/// Whose operand 0 is asked for, whose operand 0 has the value, and the part of the register. The last changes nothing.
const CHAINS: &[(u32, u32, u32)] = &[
    (1, 2, 0),
    (2, 3, 0),
    (3, 4, 0),
    (5, 6, 0),
    (6, 5, 0),
    (7, 4, 1),
    (1, 9, 0),
];

/// An instruction's number and the operand that is asked for, and whose value it is.
const ENDS: &[(u32, u32, Option<(u32, u32)>)] = &[
    (1, 0, Some((4, 0))),
    (5, 0, None),
    (7, 0, None),
    (8, 1, Some((8, 1))),
    (1, 1, Some((1, 1))),
];

/// Whether an operand leads to the one with these numbers, or to none.
fn leads(subs: &Substitutions, number: u32, operand: u32, wanted: &Option<(u32, u32)>) -> bool {
    let found = subs.resolve(pair(number, operand));
    match (&found, wanted) {
        (Some(found), Some((number, operand))) => *found == pair(*number, *operand),
        (None, None) => true,
        (Some(_), None) | (None, Some(_)) => false,
    }
}

/// The number of the first row whose operand leads elsewhere.
fn other_end(subs: &Substitutions, rows: &[(u32, u32, Option<(u32, u32)>)]) -> Option<usize> {
    for (row, (number, operand, wanted)) in rows.iter().enumerate() {
        if !leads(subs, *number, *operand, wanted) {
            return Some(row);
        }
    }
    None
}

/// Whether the entries and their copy have six entries, and lead where they should.
fn chains(alloc: Global) -> Result<bool, AllocError> {
    let subs = entries(alloc, CHAINS)?;
    let copied = subs.copy()?;
    Ok(
        copied.entries().len() == 6
            && other_end(&subs, ENDS).is_none()
            && other_end(&copied, ENDS).is_none(),
    )
}

/// A chain of 10,000 entries, whose last leads to a number.
fn long_chain(alloc: Global, last: u32) -> Result<Substitutions, AllocError> {
    let mut subs = Substitutions::new(alloc);
    for k in 1..10_000u32 {
        subs.add(entry(k, k + 1, 0))?;
    }
    subs.add(entry(10_000, last, 0))?;
    Ok(subs)
}

/// How many entries a chain of 10,000 entries has, and where its first leads.
fn end_of_long_chain(alloc: Global, last: u32) -> Result<(usize, Option<OperandPair>), AllocError> {
    let subs = long_chain(alloc, last)?;
    Ok((subs.entries().len(), subs.resolve(pair(1, 0))))
}

#[test]
fn chains_are_followed(rt: HostRuntime) -> Result<(), Fail> {
    assert!(rt; chains(rt.alloc())?);
    let straight = end_of_long_chain(rt.alloc(), 10_001)?;
    assert!(rt; straight == (10_000, Some(pair(10_001, 0))));
    let round = end_of_long_chain(rt.alloc(), 1)?;
    assert!(rt; round == (10_000, None));
    Ok(())
}
