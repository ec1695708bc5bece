//! The law on items that were read.

ghost use Rattle.readback_items.specs.Readable.{ItemsAreReadable};

/// The line of each item of a function that was read meets the conditions under which it is read back.
pub fn items_are_readable()
    ensures { ItemsAreReadable }
{}
