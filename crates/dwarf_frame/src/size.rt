//! The size of a section in bytes.

ghost use Rattle.std.specs.Prelude.{◌≡◌, ◌+◌, ◌*◌, ◌-◌, ◌^◌, ◌≤◌, ◌<◌, ◌↔◌, length, All, IsNone, IfSome};
ghost use Rattle.dwarf_line.specs.Spelling.{changing};
ghost use Rattle.dwarf_base.specs.Size.{capped};
ghost use Rattle.dwarf_frame.specs.Table;
ghost use Rattle.dwarf_frame.specs.Table.{IsDescription, AreUndefined};
ghost use Rattle.dwarf_frame.specs.Spelling;
ghost use Rattle.dwarf_frame.specs.Spelling.{def_cfa_offset, saves, restores, rows_after, common_fields};
ghost use Rattle.dwarf_frame.specs.Spelling.{description, spelling};

use crate::rows::{has_saved, initial};
use crate::table::{FrameDescription, Row};
use dwarf_base::leb::uleb;
use dwarf_base::limits::SECTION_LIMIT;

/// The bytes of the common information entry after the CIE_id, before the registers whose values functions may lose.
const COMMON: u32 = 10;
/// The bytes of a frame description entry before its call frame instructions.
const FIELDS: usize = 24;

/// The size of the functions' section in bytes, with the registers whose values they may lose, and `None` if and only
/// if it is 2^31 or more. It takes no memory.
pub fn frame_size(undefined: &[u8], functions: &[FrameDescription]) -> Option<u32>
    requires undefined { AreUndefined undefined.now }
    requires functions { All IsDescription functions.now }
    ensures none { IsNone result ↔ (2 ^ 31 ≤ length (spelling undefined.now functions.now)) }
    ensures size { IfSome result (λ size. size ≡ length (spelling undefined.now functions.now)) }
{
    let mut size = 4 + common_len(undefined) as usize;
    for function in functions {
        size = size.saturating_add(description_len(function));
    }
    if size < SECTION_LIMIT {
        Some(size as u32)
    } else {
        None
    }
}

/// The length of the common information entry, which doesn't count its own four bytes.
pub(crate) fn common_len(undefined: &[u8]) -> u32
    requires { AreUndefined undefined.now }
    ensures { result ≡ 4 + length (common_fields undefined.now) }
{
    let opcodes = COMMON + 2 * undefined.len() as u32;
    4 + opcodes + (8 - opcodes % 8) % 8
}

/// The bytes of a function's entry.
fn description_len(function: &FrameDescription) -> usize
    requires { IsDescription function.now }
    ensures { result ≡ capped (length (description function.now)) }
{
    let rows = rows_len(function);
    let padding = (8 - rows % 8) % 8;
    rows.saturating_add(FIELDS + padding)
}

/// The bytes of a function's rows.
fn rows_len(function: &FrameDescription) -> usize
    requires { IsDescription function.now }
    ensures { result ≡ capped (length (rows_after (Table.initial function.now.start) function.now.rows)) }
{
    let mut before = initial(function.start);
    let mut len: usize = 0;
    for row in function.rows.as_slice() {
        len = len.saturating_add(row_len(&before, row));
        before = *row;
    }
    len
}

/// The bytes of a row after another.
#[tactic(auto, unfolding(crate::specs::Spelling::row))]
fn row_len(before: &Row, row: &Row) -> usize
    requires { before.now.address ≤ row.now.address }
    ensures exact { result ≡ length (Spelling.row before.now row.now) }
    ensures within { result ≤ 400 }
{
    let advance = advance_len((row.address - before.address) / 4);
    let offset = offset_len(before.rules.cfa_offset, row.rules.cfa_offset);
    advance + offset + registers_len(&before.rules.saved, &row.rules.saved)
}

/// The bytes of an advance by a number of instructions.
fn advance_len(words: u64) -> usize
    ensures exact { result ≡ length (Spelling.advance words) }
    ensures within { result ≤ 5 }
{
    if words < 64 { 1 } else { 5 }
}

/// The bytes of a change of the CFA's offset.
fn offset_len(before: u64, offset: u64) -> usize
    ensures exact { result ≡ length (changing before offset (def_cfa_offset offset)) }
    ensures within { result ≤ 11 }
{
    if offset == before {
        0
    } else {
        1 + uleb(offset).len()
    }
}

/// The bytes of a change of the saved registers.
fn registers_len(before: &[Option<u64>; 32], saved: &[Option<u64>; 32]) -> usize
    ensures exact { result ≡ length (Spelling.registers before.now saved.now) }
    ensures within { result ≤ 352 }
{
    if !has_saved(before) {
        saves_len(saved)
    } else if has_saved(saved) {
        0
    } else {
        restores_len(before)
    }
}

/// The bytes of the opcodes of saved registers.
fn saves_len(saved: &[Option<u64>; 32]) -> usize
    ensures exact { result ≡ length (saves 0 saved.now) }
    ensures within { result ≤ 352 }
{
    let mut len: usize = 0;
    for distance in saved {
        if let Some(distance) = *distance {
            len += 1 + uleb(distance / 8).len();
        }
    }
    len
}

/// The bytes of the opcodes of registers that are saved no longer.
fn restores_len(saved: &[Option<u64>; 32]) -> usize
    ensures exact { result ≡ length (restores 0 saved.now) }
    ensures within { result ≤ 352 }
{
    let mut len: usize = 0;
    for distance in saved {
        if let Some(_) = *distance {
            len += 1;
        }
    }
    len
}
