//! The law that documents are read back.

ghost use Rattle.readback_functions.specs.Document.{DocumentsReadBack};

/// The text of function documents of printable lines under their keys, one after the other, has no fault and no
/// metadata, and its functions are these documents.
pub fn documents_read_back()
    ensures { DocumentsReadBack }
{}
