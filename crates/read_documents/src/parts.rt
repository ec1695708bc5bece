//! The documents of a file, and of each function.

use base_list::List;
use read_lexer::line::Lines;

/// The document of a function that was closed. The lines of a key begin with the key's own line, but those of `body`
/// after it. A key that is missing has no lines.
#[derive(Debug, Drop)]
pub struct FunctionDocument {
    /// The number of the line that opens the function.
    pub opened: u32,
    /// The number of the line that closes the function.
    pub closed: u32,
    /// Whether the function is read in the linked language.
    pub linked: bool,
    /// The lines of `name`.
    pub name: Lines,
    /// The lines of `stack`.
    pub stack: Lines,
    /// The lines of `fixedStack`.
    pub fixed: Lines,
    /// The lines of `debugValueSubstitutions`.
    pub substitutions: Lines,
    /// The lines of `constants`.
    pub constants: Lines,
    /// The lines of `exposesReturnsTwice`.
    pub twice: Lines,
    /// The lines after `body:`.
    pub body: Lines,
}

/// Functions in the order of the file.
pub type FunctionDocuments = List<FunctionDocument>;

/// The documents of a file, up to its first fault.
#[derive(Debug, Drop)]
pub struct Documents {
    /// The lines of the IR block, without its marker lines.
    pub meta: Lines,
    /// The functions that were closed, in the order of the file.
    pub functions: FunctionDocuments,
    /// The number of the first line where the file is no sequence of documents; `None` if it is one.
    pub bad: Option<u32>,
}
