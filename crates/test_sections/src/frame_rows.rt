//! Whether call frame information can be written.

ghost use Rattle.std.specs.Prelude.{◌≡◌, ◌≢◌, true, length, get_or, None, IsTrue, All};
ghost use Rattle.dwarf_frame.specs.Table.{is_saved, IsDistance, MayBeLost, AreUndefined, AreRules, IsNext, AreRows};
ghost use Rattle.dwarf_frame.specs.Table.{IsDescription};

use dwarf_frame::rows::{has_saved, initial, is_fixed};
use dwarf_frame::table::{FrameDescription, FrameRow, Row};

/// The limit on an offset and on a distance, exclusive.
const OFFSET_LIMIT: u64 = 1 << 32;
/// The limit on the bytes between two rows, exclusive.
const ADVANCE_LIMIT: u64 = 1 << 34;

/// Whether a distance can be written.
fn is_distance(distance: Option<u64>) -> bool
    ensures { IsTrue result → IsDistance distance }
{
    match distance {
        Some(distance) => distance % 8 == 0 && distance < OFFSET_LIMIT,
        None => true,
    }
}

/// Whether distances can be written.
fn are_distances(saved: &[Option<u64>; 32]) -> bool
    ensures count { length saved.now ≡ 32 }
    ensures distances { IsTrue result → All IsDistance saved.now }
{
    for distance in saved {
        if !is_distance(*distance) {
            return false;
        }
    }
    true
}

/// Whether x0 and x2 aren't saved.
fn spare_fixed(saved: &[Option<u64>; 32]) -> bool
    ensures zero { IsTrue result → get_or saved.now 0 None ≡ None }
    ensures pointer { IsTrue result → get_or saved.now 2 None ≡ None }
{
    saved[0].is_none() && saved[2].is_none()
}

/// Whether a function may lose the value of a register.
fn may_be_lost(register: u8) -> bool
    ensures { IsTrue result → MayBeLost register }
{
    register < 32 && !is_fixed(register)
}

/// Whether functions may lose the values of registers.
fn may_be_all_lost(registers: &[u8]) -> bool
    ensures { IsTrue result → All MayBeLost registers.now }
{
    for register in registers {
        if !may_be_lost(*register) {
            return false;
        }
    }
    true
}

/// Whether registers are such as functions may lose, and few.
pub(crate) fn are_undefined(registers: &[u8]) -> bool
    ensures { IsTrue result → AreUndefined registers.now }
{
    registers.len() <= 32 && may_be_all_lost(registers)
}

/// Whether rules can be written.
fn are_rules(rules: &FrameRow) -> bool
    ensures { IsTrue result → AreRules rules.now }
{
    rules.cfa_offset < OFFSET_LIMIT && are_distances(&rules.saved) && spare_fixed(&rules.saved)
}

/// Whether the rules of two rows differ in their offset or in whether a register is saved, and at most one of the two
/// saves registers.
fn is_change(before: &FrameRow, rules: &FrameRow) -> bool
    ensures differ { IsTrue result → rules.now ≢ before.now }
    ensures apart { IsTrue result → is_saved before.now.saved ≡ true → is_saved rules.now.saved ≡ true → ⊥ }
{
    let was = has_saved(&before.saved);
    let is = has_saved(&rules.saved);
    !(was && is) && (was != is || before.cfa_offset != rules.cfa_offset)
}

/// Whether a row can follow another, in a function that ends at an address.
fn is_next(before: &Row, row: &Row, end: u64) -> bool
    ensures { IsTrue result → IsNext before.now row.now end }
{
    if row.address <= before.address || end <= row.address {
        return false;
    }
    let bytes = row.address - before.address;
    bytes % 4 == 0 && bytes < ADVANCE_LIMIT && is_change(&before.rules, &row.rules)
}

/// Whether rows can follow a row, in a function that ends at an address.
fn are_rows(before: &Row, rows: &[Row], end: u64) -> bool
    ensures { IsTrue result → AreRows before.now rows.now end }
{
    match rows {
        [] => true,
        [row, rest @ ..] => {
            is_next(before, row, end) && are_rules(&row.rules) && are_rows(row, rest, end)
        }
    }
}

/// Whether a function can be written.
fn is_description(function: &FrameDescription) -> bool
    ensures { IsTrue result → IsDescription function.now }
{
    match function.start.checked_add(function.size) {
        Some(end) => are_rows(&initial(function.start), function.rows.as_slice(), end),
        None => false,
    }
}

/// Whether functions can be written.
pub(crate) fn are_descriptions(functions: &[FrameDescription]) -> bool
    ensures { IsTrue result → All IsDescription functions.now }
{
    for function in functions {
        if !is_description(function) {
            return false;
        }
    }
    true
}
