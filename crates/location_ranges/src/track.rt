//! The ranges of one variable, as the walk writes them.

ghost use Rattle.std.specs.Prelude.{◌≡◌, ◌++◌, [], Some, None, Option, IfOk, OnOk, IsTrue, ◌↔◌};
ghost use Rattle.dwarf_loclists.specs.declared.range.Location.{Location};
ghost use Rattle.location_ranges.specs.Covered.{covered, located, opened, closed, Turns};
ghost use Rattle.location_ranges.specs.Turning.{TurnsSayOn, TracksAreRanges};

use dwarf_loclists::range::{Location, Range, Ranges};
use std::alloc::{AllocError, Global};
use std::mem;

/// A range without its end.
#[derive(Debug, Drop)]
pub struct Open {
    /// Its first address.
    pub lo: u64,
    /// Its location.
    pub location: Location,
}

/// The ranges of a variable up to an address: finished ones, and an open one.
#[derive(Debug, Drop)]
pub struct Track {
    /// The finished ranges, in ascending order.
    pub ranges: Ranges,
    /// The open range, if there is one.
    pub present: Option<Open>,
}

impl Track {
    /// A track without ranges. It takes no memory.
    pub fn new(alloc: Global) -> Track
        ensures ranges { result.ranges ≡ [] }
        ensures present { result.present ≡ None }
    {
        Track {
            ranges: Ranges::new(alloc),
            present: None,
        }
    }

    /// Changes the location at an address. The open range stays open if it has this location. The error is out of
    /// memory.
    pub fn turn(self, address: u64, location: Option<Location>) -> Result<Track, AllocError>
        ensures { IfOk result (Turns self address location) }
    {
        if is_at(&self.present, &location) {
            return Ok(self);
        }
        let ranges = self.close(address)?;
        Ok(Track {
            ranges,
            present: open_at(address, location),
        })
    }

    /// The same in place. After an error the ranges are lost.
    pub fn turn_to(
        &mut self,
        alloc: Global,
        address: u64,
        location: Option<Location>,
    ) -> Result<(), AllocError>
        ensures { OnOk result (Turns self.old address location self.new) }
    {
        let before = mem::replace(self, Track::new(alloc));
        *self = before.turn(address, location)?;
        Ok(())
    }

    /// The ranges, with the open one closed at an address. The error is out of memory.
    pub fn close(self, address: u64) -> Result<Ranges, AllocError>
        ensures { IfOk result (λ ranges. ranges ≡ covered self address) }
    {
        let Track { ranges, present } = self;
        end(ranges, present, address)
    }
}

/// Appends the open range, closed at an address.
fn end(ranges: Ranges, present: Option<Open>, address: u64) -> Result<Ranges, AllocError>
    ensures { IfOk result (λ all. all ≡ ranges ++ closed present address) }
{
    let mut all = ranges;
    match present {
        None => Ok(all),
        Some(Open { lo, location }) => {
            all.push(Range {
                lo,
                hi: address,
                location,
            })?;
            Ok(all)
        }
    }
}

fn open_at(address: u64, location: Option<Location>) -> Option<Open>
    ensures { result ≡ opened address location }
{
    match location {
        None => None,
        Some(location) => Some(Open {
            lo: address,
            location,
        }),
    }
}

/// Whether the open range has this location, or neither exists.
fn is_at(present: &Option<Open>, location: &Option<Location>) -> bool
    ensures { IsTrue result ↔ (located present.now ≡ location.now) }
{
    match present {
        None => location.is_none(),
        Some(present) => match location {
            None => false,
            Some(location) => present.location.equals(location),
        },
    }
}

/// A change of location preserves the locations below its address, and sets the location from it up to any later
/// address.
pub fn turns_say_on()
    ensures { TurnsSayOn }
{}

/// The ranges of a track, closed at an address, ascend and have no location from it on.
pub fn tracks_are_ranges()
    ensures { TracksAreRanges }
{}
