//! Programs and texts that are answered: the contracts of empty functions.

ghost use Rattle.theorem_answers.specs.Laws.{GeneratedProgramsAreAnswered, GeneratedTextsAreAnswerable, GeneratedDocumentsAreAnswerable};
ghost use Rattle.theorem_answers.specs.Laws.{GeneratedTextsAreStripped};

/// Nothing refuses the program of a generated function, which has debug values for variables, whatever passes `compile`
/// runs. So `compile` answers each text within the limit that is read as this program, and the clause on what is
/// answered isn't vacuous.
pub fn generated_programs_are_answered()
    ensures programs { GeneratedProgramsAreAnswered }
    ensures texts { GeneratedTextsAreAnswerable }
{}

/// The document of a generated function can be compiled, by any passes, and what `gen` writes can be stripped.
pub fn generated_texts_are_answered()
    ensures documents { GeneratedDocumentsAreAnswerable }
    ensures stripped { GeneratedTextsAreStripped }
{}
