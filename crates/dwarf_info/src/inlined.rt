//! The content of a unit with inlined functions.

use crate::unit::{BaseEntries, FunctionEntry, Name, VariableEntries};
use base_list::List;

/// Names, in order.
pub type Names = List<Name>;
/// Calls, in order.
pub type InlinedCalls = List<InlinedCall>;
/// Functions with their calls, in order.
pub type InlinedFunctions = List<InlinedFunction>;

/// The code of a function that was inlined at a call (DWARF 5 section 3.3.8.2).
#[derive(Debug, Drop)]
pub struct InlinedCall {
    /// The call in whose code it stands, by its index among the function's calls, which is below its own, and none for
    /// a call in the function's own code.
    pub parent: Option<usize>,
    /// The function that was inlined, by the index of its abstract entry.
    pub origin: usize,
    /// The file of the call, by its number in the line number table.
    pub file: u32,
    /// The line of the call.
    pub line: u32,
    /// The column of the call.
    pub column: u32,
    /// The parameters and variables of the function that was inlined.
    pub variables: VariableEntries,
}

/// A function, and the calls in it whose functions were inlined.
#[derive(Debug, Drop)]
pub struct InlinedFunction {
    /// The function, with its own variables alone.
    pub function: FunctionEntry,
    /// The calls.
    pub calls: InlinedCalls,
}

/// A compilation unit (DWARF 5 section 3.1.1).
#[derive(Debug, Drop)]
pub struct InlinedUnit {
    /// The name of its source file.
    pub name: Name,
    /// The directory of its compilation.
    pub dir: Name,
    /// The length of its code in bytes.
    pub text_len: u32,
    /// Its types.
    pub types: BaseEntries,
    /// The names of the functions that were inlined, for their abstract entries (section 3.3.8.1).
    pub abstracts: Names,
    /// Its functions.
    pub functions: InlinedFunctions,
}
