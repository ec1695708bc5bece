//! What is read of the text of a generated function: the contracts of empty functions.

ghost use Rattle.theorem_gen_text.specs.Laws.{GeneratedDocumentsAreRead, GeneratedTextsAreRead, GeneratedTextsAreShort};

/// The document of a generated function alone is read as the program of the function, without metadata.
pub fn generated_documents_are_read()
    ensures { GeneratedDocumentsAreRead }
{}

/// The text that `gen` writes is read as the program of the function, with the metadata of the text.
pub fn generated_texts_are_read()
    ensures { GeneratedTextsAreRead }
{}

/// The text that `gen` writes is at most 2 MiB long, and so is its document.
pub fn generated_texts_are_short()
    ensures { GeneratedTextsAreShort }
{}
