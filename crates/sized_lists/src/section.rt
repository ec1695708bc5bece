//! The encoding of the section of all lists.

ghost use Rattle.std.specs.Prelude.{◌≡◌, ◌+◌, ◌^◌, ◌<◌, ◌≤◌, ◌++◌, length, All, OnOk, IfOk, IsNone, IfSome};
ghost use Rattle.std.specs.Int.{w32, to_le_bytes};
ghost use Rattle.dwarf_loclists.specs.Ranges.{ArePlaces, IsLocated};
ghost use Rattle.dwarf_loclists.specs.Spelling.{header};
ghost use Rattle.sized_lists.specs.Spelling.{entry, list_body, spelling};

use crate::list::SizedList;
use crate::location::push_expression;
use base_list::List;
use dwarf_base::leb::uleb;
use dwarf_base::limits::SECTION_LIMIT;
use dwarf_loclists::constants::*;
use dwarf_loclists::location::push_leb;
use dwarf_loclists::range::Range;
use dwarf_loclists::section::{Bytes, push_header};
use std::alloc::{AllocError, Global};

/// The bytes of the header before the list offsets.
const HEADER: usize = 12;
/// The bytes of the header that its length counts.
const COUNTED: usize = 8;
/// The bytes of an offset.
const OFFSET: usize = 4;
/// The limit on the number of lists, whose offsets fit in a section below it.
const LIST_LIMIT: usize = SECTION_LIMIT / OFFSET;

/// The section `.debug_loclists` of the lists, in their order (DWARF 5 section 7.29), and `None` only if it would have
/// 2^31 bytes or more. The error is out of memory.
pub fn write_sized_lists(alloc: Global, lists: &[SizedList]) -> Result<Option<Bytes>, AllocError>
    // The places are x1 to x31 but x2, doublewords of the frame up to 2,024, and constants. Pieces ascend.
    requires places { All (λ l. ArePlaces l.ranges) lists.now }
    requires sizes { All (λ l. l.size < 2 ^ 61) lists.now }
    ensures bytes { IfOk result (λ made. IfSome made (λ bytes. bytes ≡ spelling lists.now)) }
    ensures small { IfOk result (λ made. IfSome made (λ bytes. length bytes < 2 ^ 31)) }
    ensures none { IfOk result (λ made. IsNone made → 2 ^ 31 ≤ length (spelling lists.now)) }
{
    let count = lists.len();
    if count >= LIST_LIMIT {
        return Ok(None);
    }
    let mut offsets = Vec::new(alloc);
    let mut bodies = Vec::new(alloc);
    for list in lists {
        let offset = OFFSET * count + bodies.len();
        if offset >= SECTION_LIMIT {
            return Ok(None);
        }
        push_offset(&mut offsets, offset)?;
        push_list(alloc, &mut bodies, list.size, list.ranges.as_slice())?;
    }
    let size = HEADER + OFFSET * count + bodies.len();
    if size >= SECTION_LIMIT {
        return Ok(None);
    }
    let section = joined(alloc, count as u32, offsets.as_slice(), bodies.as_slice())?;
    Ok(Some(section))
}

/// The section of so many lists from their offsets and their bytes.
fn joined(alloc: Global, count: u32, offsets: &[u8], bodies: &[u8]) -> Result<Bytes, AllocError>
    requires { 12 + length offsets.now + length bodies.now < 2 ^ 31 }
    ensures { IfOk result (λ bytes. bytes
        ≡ header (8 + length offsets.now + length bodies.now) count ++ offsets.now ++ bodies.now) }
{
    let length = COUNTED + offsets.len() + bodies.len();
    let mut section = Vec::with_capacity(alloc, OFFSET + length)?;
    push_header(&mut section, length as u32, count)?;
    section.extend_from_slice(offsets)?;
    section.extend_from_slice(bodies)?;
    Ok(List::from(section))
}

/// Appends the offset of a list, counted from the first offset.
fn push_offset(out: &mut Vec<u8>, offset: usize) -> Result<(), AllocError>
    requires { offset < 2 ^ 31 }
    ensures { OnOk result (out.new.items ≡ out.old.items ++ to_le_bytes w32 offset) }
{
    out.extend_from_slice(&(offset as u32).to_le_bytes())
}

/// Appends the list of a variable with so many bytes: its entries, and the end.
fn push_list(
    alloc: Global,
    out: &mut Vec<u8>,
    size: u64,
    ranges: &[Range],
) -> Result<(), AllocError>
    requires places { ArePlaces ranges.now }
    requires size { size < 2 ^ 61 }
    ensures { OnOk result (out.new.items ≡ out.old.items ++ list_body size ranges.now) }
{
    for range in ranges {
        push_entry(alloc, out, size, range)?;
    }
    out.push(DW_LLE_end_of_list)?;
    Ok(())
}

/// Appends an entry: its range, whose end is exclusive, and its location.
fn push_entry(alloc: Global, out: &mut Vec<u8>, size: u64, range: &Range) -> Result<(), AllocError>
    requires located { IsLocated range.now.location }
    requires size { size < 2 ^ 61 }
    ensures { OnOk result (out.new.items ≡ out.old.items ++ entry size range.now) }
{
    let mut location = Vec::new(alloc);
    push_expression(&mut location, size, &range.location)?;
    out.push(DW_LLE_offset_pair)?;
    push_leb(out, &uleb(range.lo))?;
    push_leb(out, &uleb(range.hi))?;
    push_leb(out, &uleb(location.len() as u64))?;
    out.extend_from_slice(location.as_slice())
}
