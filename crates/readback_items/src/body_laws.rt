//! The law that the lines of a body are read back.

ghost use Rattle.readback_items.specs.Body.{BodiesReadBack};

/// The lines of blocks that meet the conditions of blocks that were read are read as these blocks, each item as
/// its line is judged, with the positions in the text as origins.
pub fn bodies_read_back()
    ensures { BodiesReadBack }
{}
