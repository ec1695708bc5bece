//! The reader of a section, from the left.

ghost use Rattle.std.specs.Prelude.{◌≡◌, ◌+◌, ◌-◌, ◌^◌, ◌≤◌, ◌<◌, length, ℕ, List, IfOk, IfErr, Ok};
ghost use Rattle.std.specs.Prelude.{MatchResult, IsTrue};
ghost use Rattle.std.specs.Int.{w32, w64};
ghost use Rattle.dwarf_line.specs.Fields.{constants_at, number_at, uleb_at};
ghost use Rattle.dwarf_line.specs.FirstFault.{register_at};
ghost use Rattle.dwarf_frame.specs.declared.table.FrameDescription.{FrameDescription};
ghost use Rattle.dwarf_frame.specs.Table;
ghost use Rattle.dwarf_frame.specs.Table.{AreUndefined};
ghost use Rattle.dwarf_frame.specs.Spelling.{restores, undefines, common_fields};
ghost use Rattle.dwarf_frame.specs.FirstFault.{value_at, behind_common, address_at, distance_at, save_at};
ghost use Rattle.dwarf_frame.specs.FirstFault.{saves_at, registers_at};
ghost use Rattle.dwarf_frame.specs.FirstFault.{next_row_at, begins_row, padding_at, entry_at, range_at, RowsFault};
ghost use Rattle.dwarf_frame.specs.FirstFault.{FirstFault, FunctionFault, IsSection, advanced_at};
ghost use Rattle.dwarf_frame.specs.Rows.{rules_in, unwinding_in};
ghost use Rattle.dwarf_frame.specs.steps.Gives.{Gives};
ghost use Rattle.dwarf_frame.specs.steps.Read.{RulesRead, FunctionRead, SectionRead};
ghost use Rattle.dwarf_frame.specs.Standard;

use crate::constants::*;
use crate::fault::FrameFault;
use crate::rows::{NONE_SAVED, has_saved, initial, is_fixed, unwinding};
use crate::size::common_len;
use crate::table::{FrameRow, Row, UnwindingRules};
use dwarf_base::front::{split_u32, split_uleb};

/// The limit on an entry's length in the 32-bit format, exclusive (DWARF 5 section 7.4).
const LENGTH_LIMIT: u32 = 0xffff_fff0;
/// The fewest bytes of a frame description entry after its length.
const FEWEST: u32 = 20;
/// The limit on the CFA's offset, exclusive.
const OFFSET_LIMIT: u64 = 0x1_0000_0000;
/// The limit on a distance below the CFA in doublewords, exclusive.
const DISTANCE_LIMIT: u64 = 0x2000_0000;
/// The greatest end of a function's code.
const ADDRESS_LIMIT: u128 = 0x1_0000_0000_0000_0000;

/// The unwinding rules of an address by a section `.debug_frame`, as `write_frame` writes it with these registers whose
/// values functions may lose: those of the first function whose code contains the address, and `None` if there is none
/// (DWARF 5 section 6.4.1). It takes no memory, and reads each byte a bounded number of times.
pub fn row_at(
    undefined: &[u8],
    bytes: &[u8],
    address: u64,
) -> Result<Option<UnwindingRules>, FrameFault>
    requires { AreUndefined undefined.now }
    // What is read is the section of functions, and the rules are theirs.
    ensures found { IfOk result (λ rules. (functions : List FrameDescription)
        × IsSection undefined.now bytes.now functions × (rules ≡ unwinding_in undefined.now functions address)) }
    // What is the section of functions is read.
    ensures only { (functions : List FrameDescription) → IsSection undefined.now bytes.now functions
        → result ≡ Ok (unwinding_in undefined.now functions address) }
    // Of anything else the error is the first wrong field.
    ensures fault { IfErr result (λ f. FirstFault undefined.now bytes.now f.at) }
{
    match rules_of_section(undefined, bytes, address) {
        Ok(Some(row)) => Ok(Some(unwinding(undefined, &row))),
        Ok(None) => Ok(None),
        Err(fault) => Err(fault),
    }
}

/// The functions of a section are unique.
pub fn one_reading()
    ensures { (undefined bytes : List ℕ) (a b : List FrameDescription) → IsSection undefined bytes a
        → IsSection undefined bytes b → a ≡ b }
{}

/// A wrong field of a section.
#[derive(Clone, Copy, Debug, PartialEq, Eq)]
struct WrongField {
    /// The number of bytes left from the field on.
    left: usize,
}

/// The address range of a function's code.
#[derive(Clone, Copy, Debug, PartialEq, Eq)]
struct Range {
    /// The first address.
    start: u64,
    /// The size in bytes.
    size: u64,
}

/// The bytes after fields of one byte with a fixed value each.
fn constants<'a>(bytes: &'a [u8], fields: &[u8]) -> Result<&'a [u8], WrongField>
    ensures { Gives (λ x. x.now) result (constants_at fields.now bytes.now) }
{
    let mut rest = bytes;
    for field in fields {
        match rest {
            [] => return Err(WrongField { left: 0 }),
            [byte, after @ ..] => {
                if *byte != *field {
                    return Err(WrongField { left: rest.len() });
                }
                rest = after;
            }
        }
    }
    Ok(rest)
}

/// A number of four bytes, and the bytes after it.
fn u32_at(bytes: &[u8]) -> Result<(u32, &[u8]), WrongField>
    ensures { Gives (λ x. (x.0, x.1.now)) result (number_at w32 bytes.now) }
{
    match split_u32(bytes) {
        Some(read) => Ok(read),
        None => Err(WrongField { left: bytes.len() }),
    }
}

/// A number of eight bytes, and the bytes after it.
fn u64_at(bytes: &[u8]) -> Result<(u64, &[u8]), WrongField>
    ensures { Gives (λ x. (x.0, x.1.now)) result (number_at w64 bytes.now) }
{
    if bytes.len() < 8 {
        return Err(WrongField { left: bytes.len() });
    }
    let (front, rest) = bytes.split_at(8);
    let number = u64::from_le_bytes([
        front[0], front[1], front[2], front[3], front[4], front[5], front[6], front[7],
    ]);
    Ok((number, rest))
}

/// The bytes after a number of four bytes with one allowed value.
#[tactic(auto, unfolding(crate::specs::FirstFault::value_at))]
fn after_u32(bytes: &[u8], value: u32) -> Result<&[u8], WrongField>
    ensures { Gives (λ x. x.now) result (value_at w32 value bytes.now) }
{
    let (number, rest) = u32_at(bytes)?;
    if number == value {
        Ok(rest)
    } else {
        Err(WrongField { left: bytes.len() })
    }
}

/// An unsigned LEB128 number below a limit, and the bytes after it.
fn uleb_below(limit: u64, bytes: &[u8]) -> Result<(u64, &[u8]), WrongField>
    ensures gives { Gives (λ x. (x.0, x.1.now)) result (uleb_at limit bytes.now) }
    ensures below { IfOk result (λ x. x.0 < limit) }
{
    match split_uleb(bytes) {
        Some((n, rest)) => {
            if n < limit {
                Ok((n, rest))
            } else {
                Err(WrongField { left: bytes.len() })
            }
        }
        None => Err(WrongField { left: bytes.len() }),
    }
}

/// The bytes after the common information entry.
#[tactic(auto, unfolding(crate::specs::FirstFault::behind_common))]
fn after_common<'a>(undefined: &[u8], bytes: &'a [u8]) -> Result<&'a [u8], WrongField>
    requires { AreUndefined undefined.now }
    ensures { Gives (λ x. x.now) result (behind_common undefined.now bytes.now) }
{
    let id = after_u32(bytes, common_len(undefined))?;
    let fields = after_u32(id, CIE_ID)?;
    after_fields(undefined, fields)
}

/// The bytes after the fields of the common information entry that follow the CIE_id.
fn after_fields<'a>(undefined: &[u8], bytes: &'a [u8]) -> Result<&'a [u8], WrongField>
    requires { AreUndefined undefined.now }
    ensures { Gives (λ x. x.now) result (constants_at (common_fields undefined.now) bytes.now) }
{
    let opcodes = constants(bytes, &COMMON_FRONT)?;
    let nops = after_undefined(undefined, opcodes)?;
    let (padding, _) = PADDING.split_at((8 - (COMMON_FRONT.len() + 2 * undefined.len()) % 8) % 8);
    constants(nops, padding)
}

/// The bytes after the opcodes of registers whose values functions may lose.
fn after_undefined<'a>(undefined: &[u8], bytes: &'a [u8]) -> Result<&'a [u8], WrongField>
    ensures { Gives (λ x. x.now) result (constants_at (undefines undefined.now) bytes.now) }
{
    let mut rest = bytes;
    for register in undefined {
        rest = constants(rest, &[DW_CFA_undefined, *register])?;
    }
    Ok(rest)
}

/// The address after an advance by a number of instructions, in a function that ends at an address.
#[tactic(auto, unfolding(crate::specs::FirstFault::advanced_at))]
fn advanced(
    from: u64,
    end: u128,
    words: u32,
    left: usize,
    rest: &[u8],
) -> Result<(u64, &[u8]), WrongField>
    requires { end ≤ 2 ^ 64 }
    ensures { Gives (λ x. (x.0, x.1.now)) result (advanced_at from end words left rest.now) }
{
    let address = from as u128 + 4 * words as u128;
    if address < end {
        Ok((address as u64, rest))
    } else {
        Err(WrongField { left })
    }
}

/// The address after the opcode that advances it, and the bytes after that.
#[tactic(auto, unfolding(crate::specs::FirstFault::address_at))]
fn next_address(from: u64, end: u128, bytes: &[u8]) -> Result<(u64, &[u8]), WrongField>
    requires { end ≤ 2 ^ 64 }
    ensures { Gives (λ x. (x.0, x.1.now)) result (address_at from end bytes.now) }
{
    match bytes {
        [DW_CFA_advance_loc4, operand @ ..] => {
            let (words, rest) = u32_at(operand)?;
            if words < 64 {
                return Err(WrongField {
                    left: operand.len(),
                });
            }
            advanced(from, end, words, operand.len(), rest)
        }
        [opcode, rest @ ..] if DW_CFA_advance_loc < *opcode && *opcode < DW_CFA_offset => {
            let words = (*opcode - DW_CFA_advance_loc) as u32;
            advanced(from, end, words, bytes.len(), rest)
        }
        _ => Err(WrongField { left: bytes.len() }),
    }
}

/// The CFA's offset after an opcode that may change it, and the bytes after that.
#[tactic(auto, unfolding(dwarf_line::specs::FirstFault::register_at))]
fn next_offset(before: u64, bytes: &[u8]) -> Result<(u64, &[u8]), WrongField>
    ensures { Gives (λ x. (x.0, x.1.now)) result
        (register_at Standard.DW_CFA_def_cfa_offset (uleb_at (2 ^ 32)) before bytes.now) }
{
    match bytes {
        [DW_CFA_def_cfa_offset, operand @ ..] => {
            let (offset, rest) = uleb_below(OFFSET_LIMIT, operand)?;
            if offset == before {
                return Err(WrongField {
                    left: operand.len(),
                });
            }
            Ok((offset, rest))
        }
        _ => Ok((before, bytes)),
    }
}

/// The distance of a register below the CFA, if it may be saved and its opcode is next, and the bytes after that.
#[tactic(auto, unfolding(crate::specs::FirstFault::save_at))]
fn save(register: u8, bytes: &[u8]) -> Result<(Option<u64>, &[u8]), WrongField>
    requires { register < 32 }
    ensures { Gives (λ x. (x.0, x.1.now)) result (save_at register bytes.now) }
{
    if is_fixed(register) {
        Ok((None, bytes))
    } else {
        distance(register, bytes)
    }
}

/// The distance of a register below the CFA, if its opcode is next, and the bytes after that.
#[tactic(auto, unfolding(crate::specs::FirstFault::distance_at))]
fn distance(register: u8, bytes: &[u8]) -> Result<(Option<u64>, &[u8]), WrongField>
    requires { register < 32 }
    ensures { Gives (λ x. (x.0, x.1.now)) result (distance_at register bytes.now) }
{
    match bytes {
        [opcode, operand @ ..] if *opcode == DW_CFA_offset + register => {
            let (distance, rest) = uleb_below(DISTANCE_LIMIT, operand)?;
            Ok((Some(8 * distance), rest))
        }
        _ => Ok((None, bytes)),
    }
}

/// The distances of the registers whose opcodes are next, and the bytes after those.
fn saves(bytes: &[u8]) -> Result<([Option<u64>; 32], &[u8]), WrongField>
    ensures { Gives (λ x. (x.0, x.1.now)) result (saves_at 32 0 bytes.now) }
{
    let mut saved = NONE_SAVED;
    let mut rest = bytes;
    for register in 0..32u8 {
        let (distance, after) = save(register, rest)?;
        saved[register as usize] = distance;
        rest = after;
    }
    Ok((saved, rest))
}

/// The bytes after the opcodes that restore all saved registers.
fn after_restores<'a>(saved: &[Option<u64>; 32], bytes: &'a [u8]) -> Result<&'a [u8], WrongField>
    ensures { Gives (λ x. x.now) result (constants_at (restores 0 saved.now) bytes.now) }
{
    let mut rest = bytes;
    for (register, distance) in saved.iter().enumerate() {
        if let Some(_) = *distance {
            rest = constants(rest, &[DW_CFA_restore + register as u8])?;
        }
    }
    Ok(rest)
}

/// The distances after opcodes that may change them, and the bytes after those.
#[tactic(auto, unfolding(crate::specs::FirstFault::registers_at))]
fn registers<'a>(
    saved: &[Option<u64>; 32],
    bytes: &'a [u8],
) -> Result<([Option<u64>; 32], &'a [u8]), WrongField>
    ensures { Gives (λ x. (x.0, x.1.now)) result (registers_at saved.now bytes.now) }
{
    if !has_saved(saved) {
        return saves(bytes);
    }
    match bytes {
        [opcode, ..] if DW_CFA_restore <= *opcode => {
            let rest = after_restores(saved, bytes)?;
            Ok((NONE_SAVED, rest))
        }
        _ => Ok((*saved, bytes)),
    }
}

/// The row whose opcodes are next, in a function that ends at an address, and the bytes after it.
#[tactic(auto, unfolding(crate::specs::FirstFault::next_row_at))]
fn next_row<'a>(end: u128, before: &Row, bytes: &'a [u8]) -> Result<(Row, &'a [u8]), WrongField>
    requires { end ≤ 2 ^ 64 }
    ensures { Gives (λ x. (x.0, x.1.now)) result (next_row_at end before.now bytes.now) }
{
    let (address, changes) = next_address(before.address, end, bytes)?;
    let (cfa_offset, saved_changes) = next_offset(before.rules.cfa_offset, changes)?;
    let (saved, rest) = registers(&before.rules.saved, saved_changes)?;
    if rest.len() == changes.len() {
        return Err(WrongField { left: rest.len() });
    }
    let rules = FrameRow { cfa_offset, saved };
    Ok((Row { address, rules }, rest))
}

/// Whether a row is next, and not the padding.
fn is_row(bytes: &[u8]) -> bool
    ensures { result ≡ begins_row bytes.now }
{
    match bytes {
        [opcode, ..] => *opcode != DW_CFA_nop,
        [] => false,
    }
}

/// The bytes after the padding: none.
#[tactic(auto, unfolding(crate::specs::FirstFault::padding_at))]
fn after_padding(bytes: &[u8]) -> Result<&[u8], WrongField>
    ensures { Gives (λ x. x.now) result (padding_at bytes.now) }
{
    if bytes.len() < 8 {
        let (nops, _) = PADDING.split_at(bytes.len());
        constants(bytes, nops)
    } else {
        Err(WrongField { left: bytes.len() })
    }
}

/// The bytes of a frame description entry after its length, and those after the entry.
#[tactic(auto, unfolding(crate::specs::FirstFault::entry_at))]
fn entry(bytes: &[u8]) -> Result<(&[u8], &[u8]), WrongField>
    ensures { Gives (λ x. (x.0.now, x.1.now)) result (entry_at bytes.now) }
{
    let (size, rest) = u32_at(bytes)?;
    let whole = FEWEST <= size && (size as u64 + 4) % 8 == 0;
    let fits = size as usize <= rest.len() && size < LENGTH_LIMIT;
    if whole && fits {
        Ok(rest.split_at(size as usize))
    } else {
        Err(WrongField { left: bytes.len() })
    }
}

/// The address range of a frame description entry, and the bytes after it: the call frame instructions.
#[tactic(auto, unfolding(crate::specs::FirstFault::range_at))]
fn code_range(bytes: &[u8]) -> Result<(Range, &[u8]), WrongField>
    ensures gives { Gives (λ x. (x.0.start, x.0.size, x.1.now)) result (range_at bytes.now) }
    ensures end { IfOk result (λ x. x.0.start + x.0.size ≤ 2 ^ 64) }
{
    let pointer = after_u32(bytes, COMMON_POINTER)?;
    let (start, sizes) = u64_at(pointer)?;
    let (size, rest) = u64_at(sizes)?;
    if start as u128 + size as u128 <= ADDRESS_LIMIT {
        Ok((Range { start, size }, rest))
    } else {
        Err(WrongField { left: sizes.len() })
    }
}

/// The rules of an address by the rows of a function.
fn rules_of_rows(range: Range, address: u64, bytes: &[u8]) -> Result<FrameRow, WrongField>
    requires { range.start + range.size ≤ 2 ^ 64 }
    ensures { MatchResult result
        (λ rules. RulesRead (range.start + range.size) (Table.initial range.start) bytes.now address rules)
        (λ e. RowsFault (range.start + range.size) (Table.initial range.start) bytes.now e.left) }
{
    let end = range.start as u128 + range.size as u128;
    let mut before = initial(range.start);
    let mut rules = before.rules;
    let mut rest = bytes;
    while is_row(rest) {
        let (row, after) = next_row(end, &before, rest)?;
        if row.address <= address {
            rules = row.rules;
        }
        before = row;
        rest = after;
    }
    after_padding(rest)?;
    Ok(rules)
}

/// The rules of an address by a function, from the bytes of its frame description entry after the length. `None` if its
/// code doesn't contain the address.
fn rules_of_function(address: u64, bytes: &[u8]) -> Result<Option<FrameRow>, WrongField>
    ensures { MatchResult result (λ rules. FunctionRead bytes.now address rules)
        (λ e. FunctionFault bytes.now e.left) }
{
    let (range, opcodes) = code_range(bytes)?;
    let rules = rules_of_rows(range, address, opcodes)?;
    if range.start <= address && address - range.start < range.size {
        Ok(Some(rules))
    } else {
        Ok(None)
    }
}

/// The error for a wrong field of an entry, with this number of bytes after the entry.
fn fault(bytes: &[u8], field: WrongField, after: usize) -> FrameFault
    ensures { result.at ≡ length bytes.now - (field.left + after) }
{
    FrameFault {
        at: bytes.len().saturating_sub(after).saturating_sub(field.left),
    }
}

/// The rules of an address by a section.
fn rules_of_section(
    undefined: &[u8],
    bytes: &[u8],
    address: u64,
) -> Result<Option<FrameRow>, FrameFault>
    requires { AreUndefined undefined.now }
    ensures { MatchResult result (λ rules. SectionRead undefined.now bytes.now address rules)
        (λ f. FirstFault undefined.now bytes.now f.at) }
{
    let mut rest = match after_common(undefined, bytes) {
        Ok(rest) => rest,
        Err(field) => return Err(fault(bytes, field, 0)),
    };
    let mut found: Option<FrameRow> = None;
    while !rest.is_empty() {
        let (body, after) = match entry(rest) {
            Ok(read) => read,
            Err(field) => return Err(fault(bytes, field, 0)),
        };
        match rules_of_function(address, body) {
            Ok(rules) => {
                let first = found.or(rules);
                found = first;
            }
            Err(field) => return Err(fault(bytes, field, after.len())),
        }
        rest = after;
    }
    Ok(found)
}
