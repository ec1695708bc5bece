//! The encoding of the section of all lists, and its size.

ghost use Rattle.std.specs.Prelude.{◌≡◌, ◌+◌, ◌*◌, ◌^◌, ◌<◌, ◌≤◌, ◌++◌, ◌↔◌, length, sum_by, All, OnOk, IfOk, IsNone};
ghost use Rattle.std.specs.Prelude.{IfSome, ℕ, IsSome};
ghost use Rattle.dwarf_loclists.specs.Ranges.{ArePlaces, Are64Bit, Ascend, places_of};
ghost use Rattle.dwarf_loclists.specs.Grammar.{IsSection};
ghost use Rattle.dwarf_loclists.specs.Spelling.{list_spelling, bodies, offsets_from, header, spelling};

use crate::constants::*;
use crate::entry::{entry_len, push_entry};
use crate::range::{Range, RangeLists, Ranges};
use base_list::List;
use dwarf_base::constants::*;
use dwarf_base::limits::SECTION_LIMIT;
use std::alloc::{AllocError, Global};

/// Bytes, in order.
pub type Bytes = List<u8>;

/// The bytes of the header before the list offsets.
const HEADER: usize = 12;
/// The bytes of the length field, which it doesn't count.
const LENGTH: u32 = 4;
/// The bytes of an offset.
const OFFSET: usize = 4;

/// The section `.debug_loclists` of the lists, in their order (DWARF 5 section 7.29).
pub fn write_lists(alloc: Global, lists: &RangeLists) -> Result<Bytes, AllocError>
    // In each list the ranges ascend, and where two touch their locations differ.
    requires ascend { All Ascend lists.now }
    // The places are x1 to x31 but x2, doublewords of the frame up to 2,024, and constants. Pieces ascend.
    requires places { All ArePlaces lists.now }
    requires size { length (spelling lists.now) < 2 ^ 31 }
    ensures bytes { IfOk result (λ bytes. bytes ≡ spelling lists.now) }
    // It is in the grammar, and says what the lists say.
    ensures section { IfOk result (λ bytes. IsSection bytes lists.now) }
{
    let size = lists_size(lists).unwrap();
    let mut section = Vec::with_capacity(alloc, size as usize)?;
    push_header(&mut section, size - LENGTH, lists.len() as u32)?;
    push_offsets(&mut section, lists.as_slice())?;
    push_lists(&mut section, lists.as_slice())?;
    Ok(List::from(section))
}

/// The size of the lists' section in bytes, and `None` if and only if it is 2^31 or more. It takes no memory.
pub fn lists_size(lists: &RangeLists) -> Option<u32>
    // The places are x1 to x31 but x2, doublewords of the frame up to 2,024, and constants. Pieces ascend.
    requires { All ArePlaces lists.now }
    ensures none { IsNone result ↔ (2 ^ 31 ≤ length (spelling lists.now)) }
    ensures size { IfSome result (λ size. size ≡ length (spelling lists.now)) }
    // An entry has at most 65 bytes for each of its places, so few ranges fit.
    ensures few { (n : ℕ) → All (λ ranges. sum_by (λ r. places_of r.location) ranges ≤ n) lists.now
        → 12 + length lists.now * (5 + 65 * n) < 2 ^ 31 → IsSome result }
{
    let mut size = HEADER;
    for list in lists.as_slice() {
        size = with_list(size, list.as_slice())?;
    }
    Some(size as u32)
}

/// The size with one more list, its offset included, and `None` if and only if it is 2^31 or more.
fn with_list(before: usize, ranges: &[Range]) -> Option<usize>
    requires places { ArePlaces ranges.now }
    requires before { before < 2 ^ 31 }
    ensures none { IsNone result ↔ (2 ^ 31 ≤ before + 4 + length (list_spelling ranges.now)) }
    ensures size { IfSome result (λ size. size ≡ before + 4 + length (list_spelling ranges.now)) }
    ensures grown { IfSome result (λ size. size ≤ before + 5 + 65 * sum_by (λ r. places_of r.location) ranges.now) }
    ensures few { before + 5 + 65 * sum_by (λ r. places_of r.location) ranges.now < 2 ^ 31 → IsSome result }
{
    let mut size = before + OFFSET + 1;
    for range in ranges {
        if size >= SECTION_LIMIT {
            return None;
        }
        size += entry_len(range);
    }
    if size < SECTION_LIMIT {
        Some(size)
    } else {
        None
    }
}

/// The bytes of a list.
fn list_len(ranges: &[Range]) -> usize
    requires places { ArePlaces ranges.now }
    requires size { length (list_spelling ranges.now) < 2 ^ 31 }
    ensures { result ≡ length (list_spelling ranges.now) }
{
    let mut size = 1;
    for range in ranges {
        size += entry_len(range);
    }
    size
}

/// Appends the header: the length of what follows the length field, and the number of lists, among others. Range lists
/// have the same (DWARF 5 section 7.28).
pub fn push_header(out: &mut Vec<u8>, length: u32, count: u32) -> Result<(), AllocError>
    ensures { OnOk result (out.new.items ≡ out.old.items ++ header length count) }
{
    out.extend_from_slice(&length.to_le_bytes())?;
    out.extend_from_slice(&VERSION.to_le_bytes())?;
    out.push(ADDRESS_SIZE)?;
    out.push(SEGMENT_SELECTOR_SIZE)?;
    out.extend_from_slice(&count.to_le_bytes())
}

/// Appends the offset of each list, counted from the first offset.
fn push_offsets(out: &mut Vec<u8>, lists: &[Ranges]) -> Result<(), AllocError>
    requires places { All ArePlaces lists.now }
    requires size { 4 * length lists.now + length (bodies lists.now) < 2 ^ 31 }
    ensures { OnOk result (out.new.items ≡ out.old.items ++ offsets_from (4 * length lists.now) lists.now) }
{
    let mut offset = OFFSET * lists.len();
    for list in lists {
        out.extend_from_slice(&(offset as u32).to_le_bytes())?;
        offset += list_len(list.as_slice());
    }
    Ok(())
}

/// Appends the lists, one after the other.
fn push_lists(out: &mut Vec<u8>, lists: &[Ranges]) -> Result<(), AllocError>
    requires { All ArePlaces lists.now }
    ensures bytes { OnOk result (out.new.items ≡ out.old.items ++ bodies lists.now) }
    ensures wide { OnOk result (All Are64Bit lists.now) }
{
    for list in lists {
        push_list(out, list.as_slice())?;
    }
    Ok(())
}

/// Appends a list: its entries, and the end.
fn push_list(out: &mut Vec<u8>, ranges: &[Range]) -> Result<(), AllocError>
    requires { ArePlaces ranges.now }
    ensures bytes { OnOk result (out.new.items ≡ out.old.items ++ list_spelling ranges.now) }
    ensures wide { OnOk result (Are64Bit ranges.now) }
{
    for range in ranges {
        push_entry(out, range)?;
    }
    out.push(DW_LLE_end_of_list)?;
    Ok(())
}
