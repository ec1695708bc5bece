//! Laws of the metadata reader: each is the contract of a function that does nothing.

ghost use Rattle.read_metadata_proof.specs.Laws.{FieldsAreReadByTheirGrammar};

/// The metadata reader reads tokens as the fields of a node exactly if they are these fields by the grammar.
pub fn fields_are_read_by_their_grammar()
    ensures { FieldsAreReadByTheirGrammar }
{}
