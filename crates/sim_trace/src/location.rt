//! The location at an address.

ghost use Rattle.std.specs.Prelude.{◌≡◌, Some, None, MatchOption};
ghost use Rattle.dwarf_loclists.specs.Ranges.{Ascend, location_in};

use dwarf_loclists::range::{Location, Range};

/// The location at an address in a location list, by binary search: `None` if no range contains the address.
pub fn location_at<'a>(ranges: &'a [Range], address: u64) -> Option<&'a Location>
    requires { Ascend ranges.now }
    ensures { MatchOption result (location_in ranges.now address ≡ None)
        (λ l. location_in ranges.now address ≡ Some l.now) }
{
    let mut low = 0;
    let mut high = ranges.len();
    'halves: while low < high {
        let middle = low + (high - low) / 2;
        let range = &ranges[middle];
        if range.hi <= address {
            low = middle + 1;
        } else if address < range.lo {
            high = middle;
        } else {
            return Some(&range.location);
        }
    }
    None
}
