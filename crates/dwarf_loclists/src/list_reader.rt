//! The reader of a section's lists.

ghost use Rattle.std.specs.Prelude.{◌≡◌, ◌≢◌, ◌+◌, ◌*◌, ◌^◌, ◌<◌, ◌≤◌, ◌⊎◌, ℕ, List, [], ◌∷◌, ◌++◌, length, IfOk};
ghost use Rattle.std.specs.Prelude.{IfErr, IsTrue, ◌↔◌};
ghost use Rattle.std.specs.Option.{option_copied};
ghost use Rattle.std.specs.Prelude.{drop};
ghost use Rattle.dwarf_base.specs.Leb.{uleb_of};
ghost use Rattle.dwarf_base.specs.Standard;
ghost use Rattle.dwarf_loclists.specs.declared.range.Range.{Range};
ghost use Rattle.dwarf_loclists.specs.Fault.{EntryKind, StartOffset, FaultAt};
ghost use Rattle.dwarf_loclists.specs.steps.Reader.{StandsAt, AtLists, Last, EntryRead, ListRead, AllRead};

use crate::constants::*;
use crate::fault::ListFault;
use crate::header::expect;
use crate::split::is_expression;
use dwarf_base::front::split_uleb;

/// The bytes of an offset.
const OFFSET: usize = 4;
/// The bytes of the header, from which offsets count.
const HEADER: usize = 12;

/// An entry as read.
#[derive(Clone, Copy)]
pub struct LocationListEntry<'a> {
    /// The first address of its range.
    pub lo: u64,
    /// The address after the range.
    pub hi: u64,
    /// The expression of its location.
    pub expression: &'a [u8],
}

/// The result of reading a list.
#[derive(Clone, Copy)]
pub struct ReadList<'a> {
    /// The expression of the entry whose range contains the address.
    pub found: Option<&'a [u8]>,
    /// The bytes after the list.
    pub rest: &'a [u8],
}

/// The expression at an address by list k, of this number of lists.
pub fn read_lists(
    bytes: &[u8],
    count: u32,
    k: u32,
    address: u64,
) -> Result<Option<&[u8]>, ListFault>
    requires at { AtLists bytes.now count [] (drop 12 bytes.now) (drop (12 + 4 * count) bytes.now) }
    requires size { length bytes.now < 4 + Standard.LENGTH_LIMIT }
    ensures ok { IfOk result (λ found. AllRead bytes.now count k address (option_copied found)) }
    ensures err { IfErr result (λ f. FaultAt bytes.now f.at) }
{
    let mut table = &bytes[HEADER..];
    let mut rest = &bytes[HEADER + OFFSET * count as usize..];
    let mut found = None;
    for number in 0..count {
        let offset = (bytes.len() - HEADER - rest.len()) as u32;
        table = expect(bytes, table, &offset.to_le_bytes())?;
        let list = read_list(bytes, rest, address)?;
        if number == k {
            found = list.found;
        }
        rest = list.rest;
    }
    if rest.is_empty() {
        Ok(found)
    } else {
        Err(ListFault::at(bytes, rest))
    }
}

/// Reads a list up to its end.
fn read_list<'a>(bytes: &[u8], start: &'a [u8], address: u64) -> Result<ReadList<'a>, ListFault>
    requires { length start.now ≤ length bytes.now }
    ensures ok { IfOk result (λ r. (n : ℕ) (done : List (List Range))
        → StandsAt bytes.now (EntryKind n done []) start.now
        → ListRead bytes.now n done address (option_copied r.found) r.rest.now) }
    ensures err { IfErr result (λ f. (n : ℕ) (done : List (List Range)) → StandsAt bytes.now (EntryKind n done [])
        start.now
        → FaultAt bytes.now f.at) }
{
    let mut rest = start;
    let mut last = LocationListEntry {
        lo: 0,
        hi: 0,
        expression: &start[..0],
    };
    let mut found = None;
    loop {
        let (kind, after) = read_kind(bytes, rest)?;
        if kind == DW_LLE_end_of_list {
            return Ok(ReadList { found, rest: after });
        }
        let (entry, after) = read_entry(bytes, after, last)?;
        if entry.lo <= address && address < entry.hi {
            found = Some(entry.expression);
        }
        last = entry;
        rest = after;
    }
}

/// The kind of an entry, and the bytes after it.
fn read_kind<'a>(bytes: &[u8], rest: &'a [u8]) -> Result<(u8, &'a [u8]), ListFault>
    requires { length rest.now ≤ length bytes.now }
    ensures front { IfOk result (λ r. rest.now ≡ r.0 ∷ r.1.now) }
    ensures kind { IfOk result (λ r. (r.0 ≡ 0) ⊎ (r.0 ≡ 4)) }
    ensures at { IfErr result (λ f. f.at + length rest.now ≡ length bytes.now) }
    ensures no_end { IfErr result (λ f. (after : List ℕ) → rest.now ≢ 0 ∷ after) }
    ensures no_pair { IfErr result (λ f. (after : List ℕ) → rest.now ≢ 4 ∷ after) }
{
    match rest {
        [DW_LLE_end_of_list, after @ ..] => Ok((DW_LLE_end_of_list, after)),
        [DW_LLE_offset_pair, after @ ..] => Ok((DW_LLE_offset_pair, after)),
        _ => Err(ListFault::at(bytes, rest)),
    }
}

/// The entry after its kind, and the bytes after it. `last` is the entry before.
fn read_entry<'a>(
    bytes: &[u8],
    rest: &'a [u8],
    last: LocationListEntry<'a>,
) -> Result<(LocationListEntry<'a>, &'a [u8]), ListFault>
    requires { length rest.now ≤ length bytes.now }
    ensures ok { IfOk result (λ r. (n : ℕ) (done : List (List Range)) (ranges : List Range)
        → StandsAt bytes.now (StartOffset n done ranges) rest.now
        → Last ranges last.entry.hi last.entry.expression.now
        → EntryRead bytes.now n done ranges r.0.lo r.0.hi r.0.expression.now r.1.now) }
    ensures shorter { IfOk result (λ r. length r.1.now ≤ length rest.now) }
    ensures err { IfErr result (λ f. (n : ℕ) (done : List (List Range)) (ranges : List Range) → StandsAt bytes.now
        (StartOffset n done ranges) rest.now
        → Last ranges last.entry.hi last.entry.expression.now → FaultAt bytes.now f.at) }
{
    let (lo, after_lo) = read_number(bytes, rest)?;
    if lo < last.hi {
        return Err(ListFault::at(bytes, rest));
    }
    let (hi, after_hi) = read_number(bytes, after_lo)?;
    if hi <= lo {
        return Err(ListFault::at(bytes, after_lo));
    }
    let (len, rest) = read_number(bytes, after_hi)?;
    if len > rest.len() as u64 {
        return Err(ListFault::at(bytes, rest));
    }
    let (expression, after) = rest.split_at(len as usize);
    if !is_expression(expression) {
        return Err(ListFault::at(bytes, rest));
    }
    if repeats(lo, expression, last) {
        return Err(ListFault::at(bytes, rest));
    }
    Ok((LocationListEntry { lo, hi, expression }, after))
}

/// Whether a range begins where the last one ends, at the same location.
fn repeats(lo: u64, expression: &[u8], last: LocationListEntry) -> bool
    ensures { IsTrue result ↔ ((lo ≡ last.entry.hi) × (expression.now ≡ last.entry.expression.now)) }
{
    lo == last.hi && expression == last.expression
}

/// An unsigned LEB128 number in its shortest encoding, and the bytes after it.
fn read_number<'a>(bytes: &[u8], rest: &'a [u8]) -> Result<(u64, &'a [u8]), ListFault>
    requires { length rest.now ≤ length bytes.now }
    ensures front { IfOk result (λ r. rest.now ≡ uleb_of r.0 ++ r.1.now) }
    ensures fits { IfOk result (λ r. r.0 < 2 ^ 64) }
    ensures at { IfErr result (λ f. f.at + length rest.now ≡ length bytes.now) }
    ensures none { IfErr result (λ f. (n : ℕ) (after : List ℕ) → n < 2 ^ 64 → rest.now ≢ uleb_of n ++ after) }
{
    match split_uleb(rest) {
        Some(found) => Ok(found),
        None => Err(ListFault::at(bytes, rest)),
    }
}
