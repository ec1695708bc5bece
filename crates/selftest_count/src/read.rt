//! The values in location lists.

ghost use Rattle.std.specs.Prelude.{◌≡◌, ◌≤◌, ◌^◌, All};
ghost use Rattle.dwarf_loclists.specs.Ranges.{IsLocated, location_in, places_of};
ghost use Rattle.selftest_count.specs.Counts.{values_of, read_at};
ghost use Rattle.selftest_count.specs.steps.Bounds.{CanBeRead};

use dwarf_loclists::range::{Location, Ranges};
use sim_start::sim_trace_crate::location::location_at;

/// The number of values in location lists at an address: one for a whole variable, and one for each piece.
pub fn reads(lists: &[Ranges], address: u64) -> u128
    requires { All CanBeRead lists.now }
    ensures is { result ≡ read_at lists.now address }
    ensures bounded { result ≤ 2 ^ 95 }
{
    let mut reads = 0u128;
    for ranges in lists {
        reads += values(ranges, address) as u128;
    }
    reads
}

/// The number of values in a location list at an address.
fn values(ranges: &Ranges, address: u64) -> usize
    requires { CanBeRead ranges.now }
    ensures is { result ≡ values_of (location_in ranges.now address) }
    ensures bounded { result ≤ 2 ^ 32 }
{
    match location_at(ranges.as_slice(), address) {
        Some(location) => places(location),
        None => 0,
    }
}

/// The number of places in a location.
fn places(location: &Location) -> usize
    requires { IsLocated location.now }
    ensures is { result ≡ places_of location.now }
    ensures bounded { result ≤ 2 ^ 32 }
{
    match location {
        Location::Whole(_) => 1,
        Location::Parts(parts) => parts.len(),
    }
}
