//! Theorems on listings. Each is the contract of an empty function.

ghost use Rattle.listing_function.specs.Laws.{ListingsArePrintable};

/// The listing of a layout below 2^32 of a printable function, with printable variables and substitutions, is
/// printable.
pub fn listings_are_printable()
    ensures { ListingsArePrintable }
{}
