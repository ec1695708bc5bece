//! What is reported of one function of a program.

use crate::report::VariableNames;
use dwarf_loclists::range::RangeLists;
use emit_code::code::Code;
use pass_trait::loss::Losses;

/// A function that was compiled, and what was lost on the way.
#[derive(Debug, Drop)]
pub struct ReportedFunction {
    /// Its machine code, with the function with its frame.
    pub code: Code,
    /// The names of its variables, in the order of their lists.
    pub names: VariableNames,
    /// Their location lists.
    pub lists: RangeLists,
    /// What passes lost, in the order of the passes.
    pub losses: Losses,
}
