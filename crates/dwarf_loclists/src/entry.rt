//! The encoding of a location list's entry, and its length in bytes.

ghost use Rattle.std.specs.Prelude.{◌≡◌, ◌+◌, ◌*◌, ◌^◌, ◌<◌, ◌≤◌, ◌++◌, length, OnOk};
ghost use Rattle.dwarf_loclists.specs.Ranges.{IsLocated, HasWords, places_of};
ghost use Rattle.dwarf_loclists.specs.Spelling.{entry};

use crate::constants::*;
use crate::location::{location_len, push_leb, push_location};
use crate::range::Range;
use dwarf_base::leb::uleb;
use std::alloc::AllocError;

/// The bytes of an entry.
pub fn entry_len(range: &Range) -> usize
    requires { IsLocated range.now.location }
    ensures exact { result ≡ length (entry range.now) }
    ensures within { result ≤ 65 * places_of range.now.location }
    ensures small { result < 2 ^ 39 }
{
    let location = location_len(&range.location);
    1 + uleb(range.lo).len() + uleb(range.hi).len() + uleb(location as u64).len() + location
}

/// Appends an entry: its range, whose end is exclusive, and its location.
pub fn push_entry(out: &mut Vec<u8>, range: &Range) -> Result<(), AllocError>
    requires { IsLocated range.now.location }
    ensures bytes { OnOk result (out.new.items ≡ out.old.items ++ entry range.now) }
    ensures low { OnOk result (range.now.lo < 2 ^ 64) }
    ensures high { OnOk result (range.now.hi < 2 ^ 64) }
    ensures wide { OnOk result (HasWords range.now.location) }
{
    out.push(DW_LLE_offset_pair)?;
    push_leb(out, &uleb(range.lo))?;
    push_leb(out, &uleb(range.hi))?;
    push_leb(out, &uleb(location_len(&range.location) as u64))?;
    push_location(out, &range.location)
}
