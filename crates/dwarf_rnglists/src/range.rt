//! The content of range lists.

use base_list::List;

/// A range of addresses, in bytes from the base address. That is the unit's `DW_AT_low_pc`, which is 0 where the unit
/// begins at the start of `.text`: then these are addresses in `.text`.
#[derive(Clone, Copy, Debug, PartialEq, Eq)]
pub struct AddressRange {
    /// The first address.
    pub lo: u64,
    /// The address after the last.
    pub hi: u64,
}

/// The ranges of one entry, in ascending order. No two of them touch.
pub type AddressRanges = List<AddressRange>;

/// The ranges of each entry, in the order of their numbers.
pub type AddressRangeLists = List<AddressRanges>;
