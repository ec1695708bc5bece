//! Theorems on listings. Each is the contract of an empty function.

ghost use Rattle.listing_meaning.specs.Laws.{ListingsShowTheImage, ListingsShowTheFunction, ListingsShowTheItems};
ghost use Rattle.listing_meaning.specs.Laws.{ListingsLie, PlacesArePoints};

/// The image of a layout's listing is an image of the layout.
pub fn listings_show_the_image()
    ensures { ListingsShowTheImage }
{}

/// The listing of a layout shows the function with its frame: its blocks and their items, each address or access of a
/// stack object from the last object that has its byte. If none has it, it is shown from the last object that begins
/// below it; if the object that the code names has it alone, from that object, so that the items are exactly those of
/// the function.
pub fn listings_show_the_function()
    ensures function { ListingsShowTheFunction }
    ensures items { ListingsShowTheItems }
{}

/// The lines of a listing are in address order, without gaps, from the function's first address to its end.
pub fn listings_lie()
    ensures { ListingsLie }
{}

/// A listing has a byte of an item at an address exactly if the layout has an entry of this item with a byte at the
/// address.
pub fn places_are_points()
    ensures { PlacesArePoints }
{}
