//! The encoding of the section of all lists, and its size.

ghost use Rattle.std.specs.Prelude.{◌≡◌, ◌+◌, ◌*◌, ◌^◌, ◌<◌, ◌≤◌, ◌++◌, ◌↔◌, length, All, OnOk, IfOk, IsNone};
ghost use Rattle.std.specs.Prelude.{IfSome};
ghost use Rattle.dwarf_rnglists.specs.Ranges.{Are64Bit, Ascend};
ghost use Rattle.dwarf_rnglists.specs.Grammar.{IsSection};
ghost use Rattle.dwarf_rnglists.specs.Spelling.{entry, list_spelling, bodies, offsets_from, spelling};

use crate::constants::*;
use crate::range::{AddressRange, AddressRangeLists, AddressRanges};
use base_list::List;
use dwarf_base::leb::uleb;
use dwarf_base::limits::SECTION_LIMIT;
use dwarf_loclists::location::push_leb;
use dwarf_loclists::section::{Bytes, push_header};
use std::alloc::{AllocError, Global};

/// The bytes of the header before the list offsets.
const HEADER: usize = 12;
/// The bytes of the length field, which it doesn't count.
const LENGTH: u32 = 4;
/// The bytes of an offset.
const OFFSET: usize = 4;

/// The section `.debug_rnglists` of the lists, in their order (DWARF 5 section 7.28).
pub fn write_ranges(alloc: Global, lists: &AddressRangeLists) -> Result<Bytes, AllocError>
    // In each list the ranges ascend, and no two touch.
    requires ascend { All Ascend lists.now }
    requires size { length (spelling lists.now) < 2 ^ 31 }
    ensures bytes { IfOk result (λ bytes. bytes ≡ spelling lists.now) }
    // It is in the grammar, and says what the lists say.
    ensures section { IfOk result (λ bytes. IsSection bytes lists.now) }
{
    let size = ranges_size(lists).unwrap();
    let mut section = Vec::with_capacity(alloc, size as usize)?;
    push_header(&mut section, size - LENGTH, lists.len() as u32)?;
    push_offsets(&mut section, lists.as_slice())?;
    push_lists(&mut section, lists.as_slice())?;
    Ok(List::from(section))
}

/// The size of the lists' section in bytes, and `None` if and only if it is 2^31 or more. It takes no memory.
pub fn ranges_size(lists: &AddressRangeLists) -> Option<u32>
    ensures none { IsNone result ↔ (2 ^ 31 ≤ length (spelling lists.now)) }
    ensures size { IfSome result (λ size. size ≡ length (spelling lists.now)) }
{
    let mut size = HEADER;
    for list in lists.as_slice() {
        size = with_list(size, list.as_slice())?;
    }
    Some(size as u32)
}

/// The size with one more list, its offset included, and `None` if and only if it is 2^31 or more.
fn with_list(before: usize, ranges: &[AddressRange]) -> Option<usize>
    requires { before < 2 ^ 31 }
    ensures none { IsNone result ↔ (2 ^ 31 ≤ before + 4 + length (list_spelling ranges.now)) }
    ensures size { IfSome result (λ size. size ≡ before + 4 + length (list_spelling ranges.now)) }
{
    let mut size = before + OFFSET + 1;
    for range in ranges {
        if size >= SECTION_LIMIT {
            return None;
        }
        size += entry_len(range);
    }
    if size < SECTION_LIMIT {
        Some(size)
    } else {
        None
    }
}

/// The bytes of a list.
fn list_len(ranges: &[AddressRange]) -> usize
    requires { length (list_spelling ranges.now) < 2 ^ 31 }
    ensures { result ≡ length (list_spelling ranges.now) }
{
    let mut size = 1;
    for range in ranges {
        size += entry_len(range);
    }
    size
}

/// The bytes of an entry.
fn entry_len(range: &AddressRange) -> usize
    ensures exact { result ≡ length (entry range.now) }
    ensures within { result ≤ 21 }
{
    1 + uleb(range.lo).len() + uleb(range.hi).len()
}

/// Appends the offset of each list, counted from the first offset.
fn push_offsets(out: &mut Vec<u8>, lists: &[AddressRanges]) -> Result<(), AllocError>
    requires { 4 * length lists.now + length (bodies lists.now) < 2 ^ 31 }
    ensures { OnOk result (out.new.items ≡ out.old.items ++ offsets_from (4 * length lists.now) lists.now) }
{
    let mut offset = OFFSET * lists.len();
    for list in lists {
        out.extend_from_slice(&(offset as u32).to_le_bytes())?;
        offset += list_len(list.as_slice());
    }
    Ok(())
}

/// Appends the lists, one after the other.
fn push_lists(out: &mut Vec<u8>, lists: &[AddressRanges]) -> Result<(), AllocError>
    ensures bytes { OnOk result (out.new.items ≡ out.old.items ++ bodies lists.now) }
    ensures wide { OnOk result (All Are64Bit lists.now) }
{
    for list in lists {
        push_list(out, list.as_slice())?;
    }
    Ok(())
}

/// Appends a list: its entries, and the end.
fn push_list(out: &mut Vec<u8>, ranges: &[AddressRange]) -> Result<(), AllocError>
    ensures bytes { OnOk result (out.new.items ≡ out.old.items ++ list_spelling ranges.now) }
    ensures wide { OnOk result (Are64Bit ranges.now) }
{
    for range in ranges {
        push_entry(out, range)?;
    }
    out.push(DW_RLE_end_of_list)?;
    Ok(())
}

/// Appends an entry: its range, whose end is exclusive.
fn push_entry(out: &mut Vec<u8>, range: &AddressRange) -> Result<(), AllocError>
    ensures bytes { OnOk result (out.new.items ≡ out.old.items ++ entry range.now) }
    ensures low { OnOk result (range.now.lo < 2 ^ 64) }
    ensures high { OnOk result (range.now.hi < 2 ^ 64) }
{
    out.push(DW_RLE_offset_pair)?;
    push_leb(out, &uleb(range.lo))?;
    push_leb(out, &uleb(range.hi))
}
