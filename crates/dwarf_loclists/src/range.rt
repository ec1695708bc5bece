//! The content of location lists: the ranges of addresses of a variable, each with its location.

ghost use Rattle.std.specs.Prelude.{◌≡◌, ◌↔◌, IsTrue, IfOk};

use base_list::List;
use rv64_instr::place::Place;
use std::alloc::{AllocError, Global};

/// A piece of a variable, with its place. Of a register or a constant the low-order bytes are taken.
#[derive(Clone, Copy, Debug, PartialEq, Eq)]
pub struct Part {
    /// The offset of its first byte in the variable.
    pub offset: u32,
    /// Its length in bytes: 1 to 8.
    pub length: u32,
    /// Its place.
    pub place: Place,
}

/// Pieces of a variable, in ascending order. They don't overlap.
pub type Parts = List<Part>;

/// The location of a variable.
#[derive(Debug, Drop)]
pub enum Location {
    /// The whole variable: a register, a frame slot by its offset from x2 in bytes, or a constant.
    Whole(Place),
    /// Pieces of it, at least one. The other bytes have no location.
    Parts(Parts),
}

impl Location {
    /// Whether both are the same location. It takes no memory.
    pub fn equals(&self, other: &Location) -> bool
        ensures { IsTrue result ↔ (self.now ≡ other.now) }
    {
        match (self, other) {
            (Location::Whole(place), Location::Whole(same)) => place == same,
            (Location::Parts(parts), Location::Parts(same)) => parts.as_slice() == same.as_slice(),
            (Location::Whole(_), Location::Parts(_)) | (Location::Parts(_), Location::Whole(_)) =>
                false,
        }
    }

    /// A copy of the location.
    pub fn copy(&self) -> Result<Location, AllocError>
        ensures { IfOk result (λ copied. copied ≡ self.now) }
    {
        match self {
            Location::Whole(place) => Ok(Location::Whole(*place)),
            Location::Parts(parts) => Ok(Location::Parts(parts.copy()?)),
        }
    }
}

/// A range of addresses, in bytes from the base address, with the variable's location.
#[derive(Debug, Drop)]
pub struct Range {
    /// The first address.
    pub lo: u64,
    /// The address after the last.
    pub hi: u64,
    /// The variable's location.
    pub location: Location,
}

/// The ranges of one variable, in ascending order.
pub type Ranges = List<Range>;

/// The ranges of each variable, in the order of their numbers.
pub type RangeLists = List<Ranges>;

/// A copy of the ranges.
pub fn copied(alloc: Global, ranges: &[Range]) -> Result<Ranges, AllocError>
    ensures { IfOk result (λ made. made ≡ ranges.now) }
{
    let mut made = Ranges::new(alloc);
    for range in ranges {
        made.push(Range {
            lo: range.lo,
            hi: range.hi,
            location: range.location.copy()?,
        })?;
    }
    Ok(made)
}
